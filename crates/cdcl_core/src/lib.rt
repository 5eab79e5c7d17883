//! A conflict-driven clause-learning solver, as MiniSat searches. `solve` decides literals as a branching rule picks them,
//! propagates by two watched literals, learns the clause of each conflict's first unique implication point, and starts
//! anew by Luby's sequence. It answers with values that make all clauses and assumptions true; with a part of the
//! assumptions whose falsity follows from the clauses and what was learned by unit propagation; or that as many clauses
//! were learned as was allowed. Each learned clause follows from those before it and is new to them, over all questions to
//! one solver. Nothing of the rule is trusted. It stands on `clause_store`, `trail_core`, `watch_lists`, `conflict_cut` and
//! `branch_rules`.
#![tactic(auto)]

ghost use Rattle.std.specs.Prelude.{◌≡◌, ◌<◌, ◌≤◌, [], ◌∷◌, ◌++◌, length, slice_get, IfOk, OnOk, OnErr, List, Some};
ghost use Rattle.std.specs.List.{All, Contains};
ghost use Rattle.clause_store.specs.declared.Lit.{Lit};
ghost use Rattle.clause_store.specs.Clauses.{InVars, negated};
ghost use Rattle.cdcl_core.specs.Answering.{Solving, AreLessons, IsVerdict};

use branch_rules::Brancher;
use clause_store::{Lit, Lits, Store};
use fer_list::Seq;
use parts::{Engine, assemble, restart};
use std::alloc::{AllocError, Global};
use std::marker::Model;

mod arrivals;
mod blame;
mod choosing;
mod descent;
mod lessons;
mod luby;
mod parts;
mod rounds;
mod standing;

/// The answer to a question.
#[derive(Debug, Drop)]
pub enum Verdict {
    /// These values make all clauses and assumptions true: that of variable v stands at place v - 1.
    Satisfied(Seq<bool>),
    /// No values make all clauses and these assumptions true.
    Refuted(Lits),
    /// As many clauses were learned as was allowed.
    Spent,
}

/// The clauses that a solver learned, numbered from 0 in the order of learning.
#[derive(Drop)]
pub struct Learned<'a> {
    store: &'a Store,
    numbers: &'a [usize],
}

impl<'a> Model for Learned<'a> {
    ghost use Rattle.clause_store.specs.Clauses.{Formula};
    ghost use Rattle.cdcl_core.specs.Numbers.{at_numbers, AreNumbers};

    ghost Value = { Formula };

    ghost view = { λ s. record { vars = s.store.now.vars; clauses = at_numbers s.numbers.now s.store.now.clauses } };

    ghost invariant = { λ s. AreNumbers s.store.now.clauses s.numbers.now };
}

fn number_at(numbers: &[usize], place: usize) -> usize
    requires { place < length numbers.now }
    ensures { slice_get numbers.now place ≡ Some result }
{
    numbers[place]
}

impl<'a> Learned<'a> {
    /// How many clauses there are.
    pub fn len(&self) -> usize
        ensures { result ≡ length self.now.clauses }
    {
        self.numbers.len()
    }

    /// The clause of this number, in constant time. Its literals are of variables that are there.
    pub fn clause(&self, number: usize) -> &[Lit]
        requires { number < length self.now.clauses }
        ensures clause { slice_get self.now.clauses number ≡ Some result.now }
        ensures named { All (InVars self.now.vars) result.now }
    {
        let id = number_at(self.numbers, number);
        self.store.clause(id)
    }
}

/// Clauses over variables that are numbered from 1, and what was learned of them.
#[derive(Drop)]
pub struct Solver {
    alloc: Global,
    engine: Engine,
    // Whether the empty clause is known to follow.
    dead: bool,
}

impl Model for Solver {
    ghost use Rattle.cdcl_core.specs.Answering.{Solving};
    ghost use Rattle.cdcl_core.specs.Search.{solving_of, IsSolver};

    ghost Value = { Solving };

    ghost view = { λ s. solving_of s.engine };

    ghost invariant = { λ s. IsSolver s.dead s.engine };
}

impl Solver {
    /// A solver over variables from 1 to `vars`, without a clause.
    pub fn new(alloc: Global, vars: u32) -> Result<Solver, AllocError>
        ensures { IfOk result (λ s. s ≡ record { vars = vars; clauses = []; learned = [] }) }
    {
        let solver = Solver::over(alloc, Store::new(alloc, vars))?;
        Ok(solver)
    }

    /// A solver over the variables and clauses of a store, which it takes over as it is, without a copy.
    pub fn over(alloc: Global, store: Store) -> Result<Solver, AllocError>
        ensures { IfOk result (λ s. s ≡ record { vars = store.vars; clauses = store.clauses; learned = [] }) }
    {
        let mut engine = assemble(alloc, store)?;
        let alive = arrivals::admit_all(&mut engine)?;
        let solver = Solver {
            alloc,
            engine,
            dead: !alive,
        };
        Ok(solver)
    }

    /// The clauses that were learned. It takes no memory.
    pub fn learned(&self) -> Learned<'_>
        ensures { result ≡ record { vars = self.now.vars; clauses = self.now.learned } }
    {
        Learned {
            store: &self.engine.store,
            numbers: self.engine.learned.as_slice(),
        }
    }

    /// Adds a clause, whose variables have to be there. Where memory is refused, the solver stays as it was.
    pub fn add(&mut self, lits: &[Lit]) -> Result<(), AllocError>
        requires { All (InVars self.old.vars) lits.now }
        ensures ok { OnOk result (self.new ≡ record self.old { clauses = self.old.clauses ++ lits.now ∷ [] }) }
        ensures err { OnErr result (self.new ≡ self.old) }
    {
        if self.dead {
            self.engine.store.add(lits)?;
            return Ok(());
        }
        restart(&mut self.engine);
        let alive = arrivals::include(&mut self.engine, lits)?;
        self.dead = !alive;
        Ok(())
    }

    /// Asks whether values make all clauses and all assumptions true. The assumptions' variables have to be there, and none
    /// may stand beside its negation. At most `limit` clauses are learned in all, counted over all questions, and at least as
    /// many have to be allowed as are learned already. `Refuted` names a part of the assumptions such that the clause of their
    /// negations follows from the clauses and the learned ones by unit propagation. `Spent` comes only where `limit` clauses
    /// are learned and the clause of the negations of all assumptions doesn't follow from them so. The clauses stay, and what
    /// is learned is put behind what was, also where memory is refused; the solver may be asked again. What becomes of the
    /// branching rule is open.
    pub fn solve(
        &mut self,
        assumptions: &[Lit],
        limit: u64,
        brancher: &mut Option<Box<dyn Brancher>>,
    ) -> Result<Verdict, AllocError>
        requires named { All (InVars self.old.vars) assumptions.now }
        requires apart { (a : Lit) → Contains assumptions.now a → Contains assumptions.now (negated a) → ⊥ }
        requires room { length self.old.learned ≤ limit }
        ensures vars { self.new.vars ≡ self.old.vars }
        ensures clauses { self.new.clauses ≡ self.old.clauses }
        ensures learned { (more : List (List Lit)) × (self.new.learned ≡ self.old.learned ++ more) × AreLessons (self.old.clauses ++ self.old.learned) more }
        ensures within { length self.new.learned ≤ limit }
        ensures verdict { IfOk result (λ v. IsVerdict self.new assumptions.now limit v) }
    {
        if self.dead {
            return Ok(Verdict::Refuted(Seq::new(self.alloc)));
        }
        rounds::begin(self.alloc, self.engine.store.vars(), brancher)?;
        restart(&mut self.engine);
        rounds::find_answer(self.alloc, &mut self.engine, assumptions, limit, brancher)
    }
}

#[cfg(test)]
mod tests;
