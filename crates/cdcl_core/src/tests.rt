ghost use Rattle.std.specs.Prelude.{◌≡◌, ◌≤◌, [], length, true, IfOk};
ghost use Rattle.std.specs.List.{All};
ghost use Rattle.clause_store.specs.declared.Lit.{Lit};
ghost use Rattle.clause_store.specs.Clauses.{InVars};

use super::*;
use crate::luby::Pace;
use branch_rules::{Activity, First, Last};
use std::test::Fail;

fn lit(var: u32, positive: bool) -> Lit
    ensures { result ≡ record { var = var; positive = positive } }
{
    Lit { var, positive }
}

// The first `count` of the eight clauses of three literals over three variables. The last has three negative ones.
fn all_signs(alloc: Global, count: u32) -> Result<Solver, AllocError>
    ensures vars { IfOk result (λ s. s.vars ≡ 3) }
    ensures learned { IfOk result (λ s. s.learned ≡ []) }
{
    let mut solver = Solver::new(alloc, 3)?;
    for signs in 0..count {
        let one = lit(1, signs & 4 == 0);
        let two = lit(2, signs & 2 == 0);
        let three = lit(3, signs & 1 == 0);
        solver.add(&[one, two, three])?;
    }
    Ok(solver)
}

// Asks under assumptions that are variables.
fn ask(
    solver: &mut Solver,
    assumptions: &[Lit],
    limit: u64,
    brancher: &mut Option<Box<dyn Brancher>>,
) -> Result<Verdict, AllocError>
    requires named { All (InVars solver.old.vars) assumptions.now }
    requires positive { All (λ (a : Lit). a.positive ≡ true) assumptions.now }
    requires room { length solver.old.learned ≤ limit }
    ensures vars { solver.new.vars ≡ solver.old.vars }
    ensures within { length solver.new.learned ≤ limit }
{
    let verdict = solver.solve(assumptions, limit, brancher)?;
    Ok(verdict)
}

// Whether these are the literals, in whatever order.
fn has_just(lits: &[Lit], wanted: &[Lit]) -> bool {
    for lit in wanted {
        if !lits.contains(lit) {
            return false;
        }
    }
    lits.len() == wanted.len()
}

// Whether the clauses and assumptions are satisfied by these values.
fn satisfied_by(solver: &mut Solver, assumptions: &[Lit], wanted: &[bool]) -> bool
    requires named { All (InVars solver.old.vars) assumptions.now }
    requires positive { All (λ (a : Lit). a.positive ≡ true) assumptions.now }
    requires room { length solver.old.learned ≤ 1000 }
    ensures vars { solver.new.vars ≡ solver.old.vars }
    ensures within { length solver.new.learned ≤ 1000 }
{
    match ask(solver, assumptions, 1000, &mut None) {
        Ok(Verdict::Satisfied(values)) => values.as_slice() == wanted,
        _ => false,
    }
}

// Whether the clauses and assumptions are refuted, with just this part of the assumptions.
fn refuted_by(solver: &mut Solver, assumptions: &[Lit], wanted: &[Lit]) -> bool
    requires named { All (InVars solver.old.vars) assumptions.now }
    requires positive { All (λ (a : Lit). a.positive ≡ true) assumptions.now }
    requires room { length solver.old.learned ≤ 1000 }
    ensures vars { solver.new.vars ≡ solver.old.vars }
    ensures within { length solver.new.learned ≤ 1000 }
{
    match ask(solver, assumptions, 1000, &mut None) {
        Ok(Verdict::Refuted(part)) => has_just(part.as_slice(), wanted),
        _ => false,
    }
}

// Whether the answer is that a limit of one learned clause is met.
fn is_spent(solver: &mut Solver, brancher: &mut Option<Box<dyn Brancher>>) -> bool
    requires { length solver.old.learned ≤ 1 }
    ensures { length solver.new.learned ≤ 1 }
{
    match ask(solver, &[], 1, brancher) {
        Ok(Verdict::Spent) => true,
        _ => false,
    }
}

// Whether of the eight clauses this one is learned first, and they are refuted afterwards.
fn learns_first(alloc: Global, brancher: &mut Option<Box<dyn Brancher>>, wanted: &[Lit]) -> bool {
    match all_signs(alloc, 8) {
        Err(_) => false,
        Ok(mut solver) => spends_and_refutes(&mut solver, brancher, wanted),
    }
}

fn spends_and_refutes(
    solver: &mut Solver,
    brancher: &mut Option<Box<dyn Brancher>>,
    wanted: &[Lit],
) -> bool
    requires { length solver.old.learned ≤ 1 }
{
    if !is_spent(solver, brancher) {
        return false;
    }
    if !learned_just(solver, wanted) {
        return false;
    }
    refuted_by(solver, &[], &[])
}

// Whether this clause alone was learned.
fn learned_just(solver: &Solver, wanted: &[Lit]) -> bool {
    let learned = solver.learned();
    if learned.len() == 1 {
        has_just(learned.clause(0), wanted)
    } else {
        false
    }
}

#[test]
fn answers_seven_clauses(rt: HostRuntime) -> Result<(), Fail> {
    let mut seven = all_signs(rt.alloc(), 7)?;
    assert!(rt; satisfied_by(&mut seven, &[], [true, true, true].as_slice()));
    Ok(())
}

#[test]
fn asks_the_rule(rt: HostRuntime) -> Result<(), Fail> {
    let one_two = [lit(1, true), lit(2, true)];
    let two_three = [lit(2, true), lit(3, true)];
    assert!(rt; learns_first(rt.alloc(), &mut None, one_two.as_slice()));
    let first = Box::new(rt.alloc(), First::new())?;
    assert!(rt; learns_first(rt.alloc(), &mut Some(first), one_two.as_slice()));
    let last = Box::new(rt.alloc(), Last::new())?;
    assert!(rt; learns_first(rt.alloc(), &mut Some(last), two_three.as_slice()));
    let activity = Box::new(rt.alloc(), Activity::new())?;
    assert!(rt; learns_first(rt.alloc(), &mut Some(activity), one_two.as_slice()));
    Ok(())
}

// The clauses (1 1) and (-1).
#[test]
fn refutes_units(rt: HostRuntime) -> Result<(), Fail> {
    let mut solver = Solver::new(rt.alloc(), 1)?;
    solver.add(&[lit(1, true), lit(1, true)])?;
    assert!(rt; satisfied_by(&mut solver, &[], [true].as_slice()));
    solver.add(&[lit(1, false)])?;
    assert!(rt; refuted_by(&mut solver, &[], &[]));
    assert!(rt; refuted_by(&mut solver, &[lit(1, true)], &[]));
    Ok(())
}

#[test]
fn takes_a_store_over(rt: HostRuntime) -> Result<(), Fail> {
    let mut store = Store::new(rt.alloc(), 2);
    store.add(&[lit(1, true), lit(1, true)])?;
    store.add(&[lit(1, false), lit(2, false)])?;
    let mut solver = Solver::over(rt.alloc(), store)?;
    assert!(rt; satisfied_by(&mut solver, &[], [true, false].as_slice()));
    assert!(rt; refuted_by(&mut solver, &[lit(2, true)], &[lit(2, true)]));
    Ok(())
}

// One assumption is made false by another one, and then one alone makes a clause false. The others are not to blame.
#[test]
fn blames_assumptions(rt: HostRuntime) -> Result<(), Fail> {
    let mut solver = Solver::new(rt.alloc(), 4)?;
    solver.add(&[lit(1, false), lit(2, false)])?;
    let all = [lit(1, true), lit(2, true), lit(3, true)];
    let both = [lit(1, true), lit(2, true)];
    assert!(rt; refuted_by(&mut solver, all.as_slice(), both.as_slice()));
    assert!(rt;
        satisfied_by(
            &mut solver,
            &[lit(3, true)],
            [false, false, true, false].as_slice()
        )
    );
    solver.add(&[lit(1, false), lit(2, true), lit(4, true)])?;
    solver.add(&[lit(1, false), lit(2, true), lit(4, false)])?;
    assert!(rt; refuted_by(&mut solver, &[lit(3, true), lit(1, true)], &[lit(1, true)]));
    Ok(())
}

// How many conflicts the next pause takes.
fn pause(pace: &mut Pace) -> u32 {
    for count in 1..1000 {
        if pace.tick() {
            return count;
        }
    }
    0
}

#[test]
fn starts_anew_by_luby(rt: HostRuntime) -> Result<(), Fail> {
    let mut pace = Pace::new();
    for wanted in [64, 64, 128, 64, 64, 128, 256, 64, 64, 128] {
        assert_eq!(rt; pause(&mut pace), wanted);
    }
    Ok(())
}
