//! What is learned from a conflict.

ghost use Rattle.std.specs.Prelude.{◌≡◌, ◌<◌, ◌≤◌, ◌++◌, ◌∷◌, [], List, length, min, slice_get, IfOk, OnOk, OnErr, Some};
ghost use Rattle.std.specs.List.{All, Contains};
ghost use Rattle.clause_store.specs.declared.Lit.{Lit};
ghost use Rattle.clause_store.specs.Clauses.{InVars};
ghost use Rattle.trail_core.specs.Course.{HasNoValue};
ghost use Rattle.trail_core.specs.Standing.{IsUnit};
ghost use Rattle.conflict_cut.specs.Cut.{IsConflict, NameOnce};
ghost use Rattle.cdcl_core.specs.Search.{IsSearch, AreOver, IsSound, IsHooked, IsLesson, with_clause, given_in, learned_in};
ghost use Rattle.cdcl_core.specs.Steps.{JumpsBack, IsFooting};

use crate::descent::Footing;
use crate::parts::Engine;
use crate::standing::some_open;
use clause_store::{Lit, Store};
use conflict_cut::cut;
use fer_list::Seq;
use std::alloc::AllocError;
use trail_core::Trail;
use watch_lists::Watches;

// Appends a clause and notes that it was learned.
fn append(store: &mut Store, learned: &mut Seq<usize>, lits: &[Lit]) -> Result<usize, AllocError>
    requires { All (InVars store.old.vars) lits.now }
    ensures number { IfOk result (λ id. id ≡ length store.old.clauses) }
    ensures store { OnOk result (store.new ≡ with_clause store.old lits.now) }
    ensures learned { IfOk result (λ id. learned.new ≡ learned.old ++ id ∷ []) }
    ensures same { OnErr result (store.new ≡ store.old) }
    ensures same_learned { OnErr result (learned.new ≡ learned.old) }
{
    let id = store.add(lits)?;
    if learned.push(id).is_err() {
        store.truncate(id);
        return Err(AllocError);
    }
    Ok(id)
}

// Attaches the clause, if it has two literals.
fn hook(
    store: &Store,
    watches: &mut Watches,
    trail: &Trail,
    lits: &[Lit],
    id: usize,
) -> Result<(), AllocError>
    requires over { watches.old.vars ≡ store.now.vars }
    requires over_trail { trail.now.vars ≡ store.now.vars }
    requires here { slice_get store.now.clauses id ≡ Some lits.now }
    requires once { NameOnce lits.now }
    requires unit { IsUnit trail.now.entries lits.now }
    ensures ok { OnOk result (IsHooked store.now.clauses trail.now.entries watches.old watches.new id lits.now) }
    ensures err { OnErr result (watches.new ≡ watches.old) }
{
    if lits.len() < 2 {
        return Ok(());
    }
    watches.attach(store, trail, id)?;
    Ok(())
}

// Learns a clause whose literals are false but for one without a value.
fn learn(
    store: &mut Store,
    learned: &mut Seq<usize>,
    watches: &mut Watches,
    trail: &Trail,
    lits: &[Lit],
) -> Result<usize, AllocError>
    requires over { watches.old.vars ≡ store.old.vars }
    requires over_trail { trail.now.vars ≡ store.old.vars }
    requires named { All (InVars store.old.vars) lits.now }
    requires once { NameOnce lits.now }
    requires unit { IsUnit trail.now.entries lits.now }
    ensures number { IfOk result (λ id. id ≡ length store.old.clauses) }
    ensures store { OnOk result (store.new ≡ with_clause store.old lits.now) }
    ensures learned { IfOk result (λ id. learned.new ≡ learned.old ++ id ∷ []) }
    ensures hooked { IfOk result (λ id. IsHooked store.new.clauses trail.now.entries watches.old watches.new id lits.now) }
    ensures same { OnErr result (store.new ≡ store.old) }
    ensures same_learned { OnErr result (learned.new ≡ learned.old) }
    ensures same_watches { OnErr result (watches.new ≡ watches.old) }
{
    let count = learned.len();
    let id = append(store, learned, lits)?;
    if hook(store, watches, trail, lits, id).is_err() {
        store.truncate(id);
        learned.truncate(count);
        return Err(AllocError);
    }
    Ok(id)
}

// A conflict above level 0: a clause is cut, learned and made use of. Where memory is refused the trail is taken back,
// and nothing else changes.
fn take_lesson(engine: &mut Engine, conflict: usize) -> Result<(), AllocError>
    requires over { AreOver engine.old.store.vars engine.old.watches.vars engine.old.trail.vars engine.old.scratch.vars }
    requires search { IsSearch engine.old.store.clauses engine.old.watches.list engine.old.trail }
    requires level { 1 ≤ engine.old.trail.level }
    requires false_clause { IsConflict engine.old.store.clauses engine.old.trail.entries conflict }
    ensures over { AreOver engine.new.store.vars engine.new.watches.vars engine.new.trail.vars engine.new.scratch.vars }
    ensures search { IsSearch engine.new.store.clauses engine.new.watches.list engine.new.trail }
    ensures jump { JumpsBack engine.old.trail engine.new.trail }
    ensures lesson { OnOk result ((clause : List Lit) × IsLesson engine.old.store.clauses clause × (engine.new.store ≡ with_clause engine.old.store clause) × (engine.new.learned ≡ engine.old.learned ++ length engine.old.store.clauses ∷ [])) }
    ensures same { OnErr result (engine.new.store ≡ engine.old.store) }
    ensures same_learned { OnErr result (engine.new.learned ≡ engine.old.learned) }
{
    let level = cut(&engine.store, &engine.trail, conflict, &mut engine.scratch);
    engine.trail.back_to(level);
    let lit = open_lit(&engine.trail, engine.scratch.lits());
    let id = learn(
        &mut engine.store,
        &mut engine.learned,
        &mut engine.watches,
        &engine.trail,
        engine.scratch.lits(),
    )?;
    engine.trail.imply(lit, id);
    Ok(())
}

// The literal of the clause whose variable has no value.
fn open_lit(trail: &Trail, clause: &[Lit]) -> Lit
    requires named { All (InVars trail.now.vars) clause.now }
    requires some { (l : Lit) × Contains clause.now l × HasNoValue trail.now.entries l.var }
    ensures has { Contains clause.now result }
    ensures free { HasNoValue trail.now.entries result.var }
{
    match some_open(trail, clause) {
        Some(lit) => lit,
        None => unreachable!(),
    }
}

/// Learns from a conflict at a level above the footing. Where memory is refused nothing is learned, and the search is as
/// sound as before.
pub fn study(
    engine: &mut Engine,
    _assumptions: &[Lit],
    footing: &mut Footing,
    conflict: usize,
) -> Result<(), AllocError>
    requires sound { IsSound engine.old }
    requires footing { IsFooting _assumptions.now engine.old.trail footing.old }
    requires above { footing.old.level < engine.old.trail.level }
    requires false_clause { IsConflict engine.old.store.clauses engine.old.trail.entries conflict }
    ensures sound { IsSound engine.new }
    ensures vars { engine.new.store.vars ≡ engine.old.store.vars }
    ensures given { given_in engine.new ≡ given_in engine.old }
    ensures footing { IsFooting _assumptions.now engine.new.trail footing.new }
    ensures lesson { OnOk result ((clause : List Lit) × IsLesson (given_in engine.old ++ learned_in engine.old) clause × (learned_in engine.new ≡ learned_in engine.old ++ clause ∷ [])) }
    ensures same { OnErr result (learned_in engine.new ≡ learned_in engine.old) }
{
    let learnt = take_lesson(engine, conflict);
    footing.level = footing.level.min(engine.trail.level());
    footing.met = 0;
    learnt
}
