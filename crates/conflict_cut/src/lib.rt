//! From a conflict to the clause of its first unique implication point, as GRASP and MiniSat learn it. `cut` goes back along
//! the trail from its end, and puts in the place of each implied literal of the present level that matters the others of
//! its reason, until one literal of that level is left. The clause that it leaves is false, follows from the store by unit
//! propagation, and has one literal of the present level; the level answered is the greatest of the others, so after a
//! jump back to it the clause is unit. Literals of level 0 are left out. The work goes by the literals gone through, and
//! marks are cleared the same way. The module `laws` says what a search needs besides: how a trail keeps its reasons, and
//! when the clause is new. It stands on `trail_core` and `clause_store`.
#![tactic(auto)]

ghost use Rattle.std.specs.Prelude.{◌≡◌, ℕ, ◌+◌, ◌-◌, ◌<◌, ◌≤◌, ◌⊎◌, [], true, false, length, slice_index_or, slice_get, IfOk, Some};
ghost use Rattle.std.specs.List.{All, Contains};
ghost use Rattle.clause_store.specs.declared.Lit.{Lit};
ghost use Rattle.clause_store.specs.Clauses.{InVars};
ghost use Rattle.clause_store.specs.Propagation.{Follows};
ghost use Rattle.trail_core.specs.Course.{Entry, IsCourse, Fails};
ghost use Rattle.trail_core.specs.Standing.{AllFail};
ghost use Rattle.conflict_cut.specs.Cut.{IsConflict, AreReasons, NameOnce, IsGreatest, IsAsserting, HasPresent};
ghost use Rattle.conflict_cut.specs.Draft.{IsMarked, IsMarkedAt, IsClean, StayMarked, IsUnderway, IsTaken, IsLow, IsWalking, IsDrawn};

mod draft;
pub mod laws;

use clause_store::{Lit, Store};
use draft::Draft;
use std::alloc::{AllocError, Global};
use std::marker::Model;
use trail_core::Trail;

// Takes in a literal: its variable is marked, and it is kept unless it is of the present level. Level 0 is left out.
fn take_in(trail: &Trail, draft: &mut Draft, count: usize, lit: Lit) -> usize
    requires underway { IsUnderway trail.now count draft.old }
    requires there { InVars trail.now.vars lit }
    requires fails { IsMarked draft.old.marks lit.var ⊎ Fails trail.now.entries lit }
    ensures underway { IsUnderway trail.now result draft.new }
    ensures taken { IsTaken trail.now.entries draft.new.marks lit }
    ensures stay { StayMarked draft.old.marks draft.new.marks }
    ensures only { (p : ℕ) → IsMarkedAt draft.new.marks p → IsMarkedAt draft.old.marks p ⊎ (lit.var ≡ p + 1) }
{
    if draft.is_marked(lit.var) {
        return count;
    }
    let level = trail.level_of(lit.var);
    if level == 0 {
        return count;
    }
    draft.mark(lit.var);
    if level == trail.level() {
        return count + 1;
    }
    draft.keep(lit);
    count
}

// Takes in the literals of a clause.
fn take_all(trail: &Trail, draft: &mut Draft, count: usize, clause: &[Lit]) -> usize
    requires underway { IsUnderway trail.now count draft.old }
    requires there { All (InVars trail.now.vars) clause.now }
    requires fails { (l : Lit) → Contains clause.now l → IsMarked draft.old.marks l.var ⊎ Fails trail.now.entries l }
    ensures underway { IsUnderway trail.now result draft.new }
    ensures taken { (l : Lit) → Contains clause.now l → IsTaken trail.now.entries draft.new.marks l }
    ensures stay { StayMarked draft.old.marks draft.new.marks }
    ensures only { (p : ℕ) → IsMarkedAt draft.new.marks p → IsMarkedAt draft.old.marks p ⊎ ((l : Lit) × Contains clause.now l × (l.var ≡ p + 1)) }
{
    let mut count = count;
    for lit in clause {
        count = take_in(trail, draft, count, *lit);
    }
    count
}

// One step back: the others of its reason take the place of an implied literal.
fn go_through(
    store: &Store,
    trail: &Trail,
    draft: &mut Draft,
    count: usize,
    at: usize,
    lit: Lit,
) -> usize
    requires over { trail.now.vars ≡ store.now.vars }
    requires reasons { AreReasons store.now.clauses trail.now.entries }
    requires walking { IsWalking store.now.clauses trail.now (at + 1) count draft.old }
    requires here { (e : Entry) × (slice_get trail.now.entries at ≡ Some e) × (e.lit ≡ lit) }
    requires marked { IsMarked draft.old.marks lit.var }
    requires more { 1 < count }
    ensures walking { IsWalking store.now.clauses trail.now at result draft.new }
{
    match trail.reason_of(lit.var) {
        None => unreachable!(),
        Some(id) => {
            let count = take_all(trail, draft, count, store.clause(id));
            draft.unmark(lit.var);
            return count - 1;
        }
    }
}

// Goes back along the trail to the last marked entry of the present level, and answers its literal.
fn walk(store: &Store, trail: &Trail, draft: &mut Draft, count: usize) -> Lit
    requires over { trail.now.vars ≡ store.now.vars }
    requires reasons { AreReasons store.now.clauses trail.now.entries }
    requires walking { IsWalking store.now.clauses trail.now (length trail.now.entries) count draft.old }
    ensures walking { (at : ℕ) × IsWalking store.now.clauses trail.now at 1 draft.new }
    ensures last { (e : Entry) × Contains trail.now.entries e × (e.lit ≡ result) × (e.level ≡ trail.now.level) × IsMarked draft.new.marks result.var }
{
    let lits = trail.lits();
    let mut at = lits.len();
    let mut count = count;
    'back: loop {
        at -= 1;
        let lit = lits[at];
        if draft.is_marked(lit.var) {
            if count == 1 {
                return lit;
            }
            count = go_through(store, trail, draft, count, at, lit);
        }
    }
}

// The greatest level of the literals, which are false.
fn greatest(trail: &Trail, lits: &[Lit]) -> u32
    requires { (l : Lit) → Contains lits.now l → IsLow trail.now l }
    ensures greatest { IsGreatest trail.now.entries (λ l. Contains lits.now l) result }
    ensures below { 1 ≤ trail.now.level → result < trail.now.level }
{
    let mut best = 0;
    for lit in lits {
        let level = trail.level_of(lit.var);
        if best < level {
            best = level;
        }
    }
    best
}

// Draws the clause of the cut, whose variables are those that are marked then, and answers its lower level.
fn draw(store: &Store, trail: &Trail, draft: &mut Draft, conflict: usize) -> u32
    requires level { 1 ≤ trail.now.level }
    requires over { trail.now.vars ≡ store.now.vars }
    requires len { length draft.old.marks ≡ store.now.vars }
    requires clean { IsClean draft.old.marks }
    requires empty { draft.old.lits ≡ [] }
    requires false_clause { IsConflict store.now.clauses trail.now.entries conflict }
    requires reasons { AreReasons store.now.clauses trail.now.entries }
    ensures drawn { IsDrawn store.now.clauses trail.now draft.new }
    ensures below { result < trail.now.level }
    ensures asserting { HasPresent store.now.clauses trail.now conflict → IsAsserting trail.now draft.new.lits result }
{
    prove!(trail.level() > 0);
    let count = take_all(trail, draft, 0, store.clause(conflict));
    if count == 0 {
        return greatest(trail, draft.lits());
    }
    let last = walk(store, trail, draft, count);
    let level = greatest(trail, draft.lits());
    draft.keep(last.negated());
    level
}

/// Room for cutting conflicts over a number of variables, and the clause that the last cut left.
#[derive(Drop)]
pub struct Scratch {
    draft: Draft,
}

impl Model for Scratch {
    ghost use Rattle.std.specs.Prelude.{length};
    ghost use Rattle.conflict_cut.specs.Cut.{Cutting};
    ghost use Rattle.conflict_cut.specs.Draft.{IsClean};

    ghost Value = { Cutting };

    ghost view = { λ s. record { vars = length s.draft.marks; lits = s.draft.lits } };

    ghost invariant = { λ s. IsClean s.draft.marks };
}

impl Scratch {
    /// Room for variables from 1 to `vars`, with no literal left yet. No cut takes more.
    pub fn new(alloc: Global, vars: u32) -> Result<Scratch, AllocError>
        ensures { IfOk result (λ s. s ≡ record { vars = vars; lits = [] }) }
    {
        let draft = Draft::new(alloc, vars)?;
        let scratch = Scratch { draft };
        Ok(scratch)
    }

    /// The literals of the clause that the last cut left.
    pub fn lits(&self) -> &[Lit]
        ensures { result.now ≡ self.now.lits }
    {
        self.draft.lits()
    }
}

/// Leaves the clause of the first unique implication point of the conflict in the scratch, and answers the level to go back
/// to: the greatest of its literals other than the one of the present level, or 0. `conflict` is the number of a clause
/// whose literals are all false, the present level isn't 0, and each reason on the trail is a clause of the store. Where
/// the conflict has no literal of the present level, the clause left is false and follows all the same. It takes no
/// memory.
pub fn cut(store: &Store, trail: &Trail, conflict: usize, scratch: &mut Scratch) -> u32
    requires level { 1 ≤ trail.now.level }
    requires over { trail.now.vars ≡ store.now.vars }
    requires over_scratch { scratch.old.vars ≡ store.now.vars }
    requires false_clause { IsConflict store.now.clauses trail.now.entries conflict }
    requires reasons { AreReasons store.now.clauses trail.now.entries }
    ensures vars { scratch.new.vars ≡ scratch.old.vars }
    ensures named { All (InVars store.now.vars) scratch.new.lits }
    ensures once { NameOnce scratch.new.lits }
    ensures all_fail { AllFail trail.now.entries scratch.new.lits }
    ensures follows { Follows store.now.clauses scratch.new.lits }
    ensures below { result < trail.now.level }
    ensures asserting { HasPresent store.now.clauses trail.now conflict → IsAsserting trail.now scratch.new.lits result }
{
    scratch.draft.begin();
    let level = draw(store, trail, &mut scratch.draft, conflict);
    scratch.draft.rub_out();
    level
}

#[cfg(test)]
mod tests;
