ghost use Rattle.std.specs.Prelude.{◌≡◌, [], ◌∷◌, length, IfOk};
ghost use Rattle.std.specs.List.{Contains};
ghost use Rattle.crash_question.specs.Outcomes.{IsOutcome};

use branch_rules::Brancher;
use cdcl_core::{Learned, Solver, Verdict};
use clause_store::Store;
use fer_list::Seq;
use proof_log::Part;
use std::alloc::{AllocError, Global};

/// What a search among clauses ends with: values that make them true, a part that refutes them, or one that leaves them
/// open.
#[derive(Debug, Drop)]
pub enum Found {
    Values(Seq<bool>),
    Refuted(Part),
    Spent(Part),
}

/// How many clauses there are. Where 32 bits don't hold the number, so large a formula counts as want of memory.
pub fn clause_count(store: &Store) -> Result<u32, AllocError>
    ensures { IfOk result (λ count. count ≡ length store.now.clauses) }
{
    match u32::try_from(store.len()) {
        Ok(count) => Ok(count),
        Err(_wide) => Err(AllocError),
    }
}

/// A copy of what was learned, over so many variables.
fn copy_learned(alloc: Global, vars: u32, learned: &Learned<'_>) -> Result<Store, AllocError>
    requires { vars ≡ learned.now.vars }
    ensures { IfOk result (λ store. store ≡ record { vars = vars; clauses = learned.now.clauses }) }
{
    let mut store = Store::new(alloc, vars);
    for number in 0..learned.len() {
        store.add(learned.clause(number))?;
    }
    Ok(store)
}

/// All that a solver learned, as a part of a log of so many clauses over its variables. `closed` says whether the empty clause
/// ends the part. The only error is want of memory.
pub fn part_of(
    alloc: Global,
    solver: &Solver,
    vars: u32,
    clauses: u32,
    closed: bool,
) -> Result<Part, AllocError>
    requires vars { vars ≡ solver.now.vars }
    requires filled { Contains solver.now.learned [] → ⊥ }
    ensures { IfOk result (λ part. part ≡ record { vars = vars; clauses = clauses; learned = solver.now.learned; closed = closed }) }
{
    let learned = copy_learned(alloc, vars, &solver.learned())?;
    Ok(Part::new(clauses, learned, closed))
}

/// What a search ends with among the clauses of a solver that learned nothing yet.
fn ask_solver(
    alloc: Global,
    solver: &mut Solver,
    vars: u32,
    clauses: u32,
    limit: u64,
    brancher: &mut Option<Box<dyn Brancher>>,
) -> Result<Found, AllocError>
    requires fresh { solver.old.learned ≡ [] }
    requires vars { vars ≡ solver.old.vars }
    requires clauses { clauses ≡ length solver.old.clauses }
    ensures { IfOk result (λ found. IsOutcome (record { vars = solver.old.vars; clauses = solver.old.clauses }) limit found) }
{
    match solver.solve(&[], limit, brancher)? {
        Verdict::Satisfied(values) => Ok(Found::Values(values)),
        Verdict::Refuted(_part) => {
            let part = part_of(alloc, solver, vars, clauses, true)?;
            Ok(Found::Refuted(part))
        }
        Verdict::Spent => {
            let part = part_of(alloc, solver, vars, clauses, false)?;
            Ok(Found::Spent(part))
        }
    }
}

/// What a search among the clauses ends with.
pub fn search(
    alloc: Global,
    store: Store,
    limit: u64,
    brancher: &mut Option<Box<dyn Brancher>>,
) -> Result<Found, AllocError>
    ensures { IfOk result (λ found. IsOutcome store limit found) }
{
    let vars = store.vars();
    let clauses = clause_count(&store)?;
    let mut solver = Solver::over(alloc, store)?;
    let found = ask_solver(alloc, &mut solver, vars, clauses, limit, brancher)?;
    Ok(found)
}
