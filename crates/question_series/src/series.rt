ghost use Rattle.std.specs.Prelude.{◌≡◌, ◌≢◌, ◌++◌, [], length, List, Bool, IfOk, OnOk};
ghost use Rattle.litmus_syntax.specs.declared.pred.Pred.{Pred};
ghost use Rattle.clause_store.specs.declared.Lit.{Lit};
ghost use Rattle.cdcl_core.specs.Answering.{Solving, AreLessons};
ghost use Rattle.fer_events.specs.Orders.{AreForward};
ghost use Rattle.question_series.specs.declared.series.SeriesAnswer.TheVariants.{Spent};
ghost use Rattle.question_series.specs.Series.{IsAbout, IsNextAnswer, IsPartUnder};
ghost use Rattle.question_series.specs.Settling.{ReachesOrder, IsTold};

use crate::assuming::{count_pairs, kept_lits, turned};
use crate::settling::{Found, find};
use branch_rules::Brancher;
use cdcl_core::Solver;
use clause_store::Lits;
use crash_question::{clause_count, part_of};
use fer_events::{Crash, Events, Pairs};
use litmus_syntax::Pred;
use order_coding::decode;
use predicate_coding::laws::{true_values_are_witnesses, witnesses_have_values};
use predicate_coding::{Coded, code};
use proof_log::Part;
use std::alloc::{AllocError, Global};
use std::marker::Model;

/// What a question of a series is answered with.
#[derive(Debug, Drop)]
pub enum SeriesAnswer {
    /// This crash keeps the pairs and answers the question.
    Allowed(Crash),
    /// No crash does.
    Forbidden,
    /// As many clauses were learned as was allowed, and the question is open.
    Spent,
}

/// A question about a list of events, which is asked for one list of kept pairs after another. It is seen as the clauses of
/// the question without kept pairs, and what was learned.
#[derive(Drop)]
pub struct Series {
    alloc: Global,
    solver: Solver,
    vars: u32,
    clauses: u32,
    // The literals that were refuted last, if any were.
    refuting: Option<Lits>,
}

impl Model for Series {
    ghost use Rattle.cdcl_core.specs.Answering.{Solving};
    ghost use Rattle.question_series.specs.Settling.{IsSeries};

    ghost Value = { Solving };

    ghost view = { λ s. s.solver };

    ghost invariant = { λ s. IsSeries s.solver s.vars s.clauses s.refuting };
}

// Makes the answer of what the search ended with.
fn tell(alloc: Global, events: &Events, found: Found) -> Result<SeriesAnswer, AllocError>
    requires { ReachesOrder (length events.now.events) found }
    ensures { IfOk result (λ answer. IsTold (length events.now.events) found answer) }
{
    match found {
        Found::Values(values) => {
            let crash = decode(alloc, events, values.as_slice())?;
            Ok(SeriesAnswer::Allowed(crash))
        }
        Found::Refuted => Ok(SeriesAnswer::Forbidden),
        Found::Spent => Ok(SeriesAnswer::Spent),
    }
}

impl Series {
    /// A series of questions about these events, which nothing was asked of yet: for a crash after which the predicate is
    /// true, where `want` is true, or false, where it is false. The clauses are coded here, once. The only error is want of
    /// memory; a question of 2^32 clauses or more counts as one that wants it.
    pub fn new(
        alloc: Global,
        events: &Events,
        pred: &Pred,
        want: bool,
    ) -> Result<Series, AllocError>
        ensures about { IfOk result (λ s. IsAbout s events.now pred.now want) }
        ensures fresh { IfOk result (λ s. s.learned ≡ []) }
    {
        events.keeps_rules();
        let free = Pairs::new(events.events().len() as u32);
        let Coded { store, .. } = code(alloc, events, &free, pred, want)?;
        let vars = store.vars();
        let clauses = clause_count(&store)?;
        let solver = Solver::over(alloc, store)?;
        Ok(Series {
            alloc,
            solver,
            vars,
            clauses,
            refuting: None,
        })
    }

    /// What was learned follows clause by clause from the clauses of the question without kept pairs, and each clause is new
    /// to those before it.
    pub fn keeps_rules(&self)
        ensures { AreLessons self.now.clauses self.now.learned }
    {
        let _vars = self.vars;
    }

    /// How many clauses were learned, over all questions. It takes no memory.
    pub fn learned(&self) -> usize
        ensures { result ≡ length self.now.learned }
    {
        self.solver.learned().len()
    }

    /// Asks for a crash that keeps these pairs. The events are those of the series, and those behind the cut of a crash that
    /// is answered ascend. At most `limit` clauses are learned in this call; 2^64 - 1 is no limit. The rule says which
    /// variable is tried next, and nothing else hangs on it. What is learned is put behind what was, also where memory is
    /// refused, and the series may be asked again.
    pub fn ask(
        &mut self,
        events: &Events,
        pairs: &Pairs,
        limit: u64,
        brancher: &mut Option<Box<dyn Brancher>>,
    ) -> Result<SeriesAnswer, AllocError>
        requires about { (pred : Pred) × (want : Bool) × IsAbout self.old events.now pred want }
        requires size { pairs.now.n ≡ length events.now.events }
        requires forward { AreForward pairs.now.n pairs.now.pairs }
        ensures vars { self.new.vars ≡ self.old.vars }
        ensures clauses { self.new.clauses ≡ self.old.clauses }
        ensures learned { (more : List (List Lit)) × (self.new.learned ≡ self.old.learned ++ more) × AreLessons (self.old.clauses ++ self.old.learned) more }
        ensures answer { (pred : Pred) (want : Bool) → IsAbout self.old events.now pred want
            → IfOk result (λ answer. IsNextAnswer events.now pairs.now.pairs pred want limit self.old self.new answer) }

        // The greatest limit is never met.
        ensures endless { limit ≡ 18446744073709551615 → IfOk result (λ answer. answer ≢ Spent) }
    {
        events.keeps_rules();
        true_values_are_witnesses();
        witnesses_have_values();
        // The part that is refuted is found among the first that are assumed. Where later questions keep fewer pairs, and first
        // lack those of early events, it lies inside theirs the longer, the later its events are.
        let lits = turned(kept_lits(self.alloc, pairs)?);
        let found = find(
            &mut self.solver,
            &mut self.refuting,
            lits.as_slice(),
            limit,
            brancher,
        )?;
        let answer = tell(self.alloc, events, found)?;
        Ok(answer)
    }

    /// All that was learned, as a part of a log of the question with these pairs kept. `closed` says whether the empty clause
    /// ends it, which has to follow then. The only error is want of memory; a question of 2^32 clauses or more counts as one
    /// that wants it.
    pub fn part(
        &self,
        alloc: Global,
        events: &Events,
        pairs: &Pairs,
        closed: bool,
    ) -> Result<Part, AllocError>
        requires about { (pred : Pred) × (want : Bool) × IsAbout self.now events.now pred want }
        requires size { pairs.now.n ≡ length events.now.events }
        requires forward { AreForward pairs.now.n pairs.now.pairs }
        ensures { (pred : Pred) (want : Bool) → IsAbout self.now events.now pred want
            → IfOk result (IsPartUnder self.now events.now pairs.now.pairs pred want closed) }
    {
        let clauses = match self.clauses.checked_add(count_pairs(pairs)) {
            Some(clauses) => clauses,
            None => return Err(AllocError),
        };
        let part = part_of(alloc, &self.solver, self.vars, clauses, closed)?;
        Ok(part)
    }
}
