//! A checker of logs. A `Checker` has clauses and judges whether a further one follows from them by reverse unit
//! propagation, exactly in both directions, by two watched literals and without going through the others; a clause that
//! follows is put behind them. `accept` judges a whole log over a formula: it is accepted, or refused at the first line that
//! is wrong, and a formula whose log is accepted has no values that make its clauses true. Nothing here knows how the log
//! was found: it stands on `unit_closure` and what lies below it, and on `proof_log` for what a log is.
#![tactic(auto)]

ghost use Rattle.std.specs.Prelude.{◌≡◌, IfOk, OnOk, OnErr, MatchBool, MatchOption};
ghost use Rattle.std.specs.List.{All};
ghost use Rattle.clause_store.specs.Clauses.{InVars};
ghost use Rattle.clause_store.specs.Propagation.{Follows};
ghost use Rattle.unit_closure.specs.Search.{with_clause};
ghost use Rattle.rup_checker.specs.Trying.{HasPart};

use clause_store::{Lit, Store};
use rounds::follows_by_rounds;
use std::alloc::{AllocError, Global};
use std::marker::Model;
use trail_core::Trail;
use trials::{Trial, try_out};
use watch_lists::Watches;

mod accepting;
mod growing;
mod judgement;
pub mod laws;
mod recent;
mod rounds;
mod trials;

pub use accepting::accept;
pub use judgement::{JudgeKind, Judgement};

// How many places for clauses that came lately a checker has at most. Those of the formula aren't noted: that would cost
// more than the checking of most logs.
const RECENT: usize = 131072;

/// Clauses over numbered variables, of which each further one has to follow from those before it.
#[derive(Drop)]
pub struct Checker {
    alloc: Global,
    store: Store,
    watches: Watches,
    trail: Trail,
    // The numbers of clauses that were judged lately, each at a place that its literals give. It is a hint: any numbers may stand
    // there.
    recent: Vec<usize>,
    // Whether the empty clause is known to follow.
    dead: bool,
}

impl Model for Checker {
    ghost use Rattle.clause_store.specs.Clauses.{Formula};
    ghost use Rattle.rup_checker.specs.Trying.{IsChecker};

    ghost Value = { Formula };

    ghost view = { λ c. c.store };

    ghost invariant = { λ c. IsChecker c.dead c.store c.watches c.trail };
}

impl Checker {
    /// A checker over the variables and clauses of a formula, which it takes over as it is, without a copy.
    pub fn over(alloc: Global, formula: Store) -> Result<Checker, AllocError>
        ensures { IfOk result (λ c. c ≡ formula) }
    {
        let mut watches = Watches::new(alloc, formula.vars())?;
        let mut trail = Trail::new(alloc, formula.vars())?;
        let alive = growing::begin(&formula, &mut watches, &mut trail)?;
        let recent = Vec::new(alloc);
        let checker = Checker {
            alloc,
            store: formula,
            watches,
            trail,
            recent,
            dead: !alive,
        };
        Ok(checker)
    }

    /// How many variables there are.
    pub fn vars(&self) -> u32
        ensures { result ≡ self.now.vars }
    {
        self.store.vars()
    }

    // Takes places for as many clauses that come lately. What was noted before is forgotten.
    fn remember(&mut self, clauses: usize) -> Result<(), AllocError>
        ensures { self.new ≡ self.old }
    {
        let places = clauses.saturating_mul(4).min(RECENT);
        let recent = vec![in self.alloc; 0usize; places]?;
        self.recent = recent;
        Ok(())
    }

    /// Takes room for so many more clauses with so many more literals together. Nothing else changes, also where memory is
    /// refused.
    pub fn reserve(&mut self, clauses: usize, lits: usize) -> Result<(), AllocError>
        ensures { self.new ≡ self.old }
    {
        self.store.reserve(clauses, lits)?;
        self.watches.reserve(clauses)?;
        self.remember(clauses)?;
        Ok(())
    }

    // Judges a clause, and where it follows tells the number of a clause that ended its trial, if one did. The number is a
    // hint: it may be any.
    fn judge(&mut self, lits: &[Lit]) -> Result<Option<usize>, AllocError>
        requires { All (InVars self.old.vars) lits.now }
        ensures exact { IfOk result (λ found. MatchOption found (Follows self.old.clauses lits.now → ⊥) (λ _. Follows self.old.clauses lits.now)) }
        ensures same { self.new ≡ self.old }
    {
        if self.dead {
            return Ok(Some(usize::MAX));
        }
        match try_out(&self.store, &mut self.watches, &mut self.trail, lits) {
            Trial::Follows(id) => return Ok(Some(id)),
            Trial::Open => return Ok(None),
            Trial::Doubtful => {}
        }
        if follows_by_rounds(self.alloc, &self.store, lits)? {
            return Ok(Some(usize::MAX));
        }
        Ok(None)
    }

    /// Whether the clause follows from the clauses by unit propagation. Its variables have to be there. The clauses stay,
    /// also where memory is refused, which is asked for only where the clause has a literal beside its negation.
    pub fn follows(&mut self, lits: &[Lit]) -> Result<bool, AllocError>
        requires { All (InVars self.old.vars) lits.now }
        ensures exact { IfOk result (λ yes. MatchBool yes (Follows self.old.clauses lits.now) (Follows self.old.clauses lits.now → ⊥)) }
        ensures same { self.new ≡ self.old }
    {
        match self.judge(lits)? {
            None => Ok(false),
            Some(_) => Ok(true),
        }
    }

    // Puts a clause behind the others.
    fn add(&mut self, lits: &[Lit]) -> Result<(), AllocError>
        requires { All (InVars self.old.vars) lits.now }
        ensures ok { OnOk result (self.new ≡ with_clause self.old lits.now) }
        ensures err { OnErr result (self.new ≡ self.old) }
    {
        if self.dead {
            self.store.add(lits)?;
            return Ok(());
        }
        let id = self.store.len();
        let alive = growing::grow(&mut self.store, &mut self.watches, &mut self.trail, lits)?;
        self.dead = !alive;
        recent::note(self.recent.as_mut_slice(), lits, id);
        Ok(())
    }

    // Puts a clause behind the others that has all literals of one of them. It isn't attached.
    fn repeat(&mut self, lits: &[Lit]) -> Result<(), AllocError>
        requires named { All (InVars self.old.vars) lits.now }
        requires wider { HasPart self.old.clauses lits.now }
        ensures follows { OnOk result (Follows self.old.clauses lits.now) }
        ensures ok { OnOk result (self.new ≡ with_clause self.old lits.now) }
        ensures err { OnErr result (self.new ≡ self.old) }
    {
        self.store.add(lits)?;
        Ok(())
    }

    /// Judges the next clause, whose variables have to be there: whether it follows from the clauses so far by unit
    /// propagation. Where it does, it is put behind them. Else they stay as they were, also where memory is refused.
    pub fn step(&mut self, lits: &[Lit]) -> Result<bool, AllocError>
        requires { All (InVars self.old.vars) lits.now }
        ensures exact { IfOk result (λ yes. MatchBool yes (Follows self.old.clauses lits.now) (Follows self.old.clauses lits.now → ⊥)) }
        ensures taken { IfOk result (λ yes. MatchBool yes (self.new ≡ with_clause self.old lits.now) (self.new ≡ self.old)) }
        ensures err { OnErr result (self.new ≡ self.old) }
    {
        if recent::is_noted(self.recent.as_slice(), &self.store, lits) {
            self.repeat(lits)?;
            return Ok(true);
        }
        let Some(id) = self.judge(lits)? else {
            return Ok(false);
        };
        if recent::is_here(&self.store, id, lits) {
            self.repeat(lits)?;
        } else {
            self.add(lits)?;
        }
        Ok(true)
    }
}

#[cfg(test)]
mod tests;
