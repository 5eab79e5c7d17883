//! The clauses over which a log is judged.

ghost use Rattle.std.specs.Prelude.{◌≡◌, [], length, List, Bool, IfOk};
ghost use Rattle.litmus_syntax.specs.Sites.{AreSyncs, StandOutside};
ghost use Rattle.clause_store.specs.Truth.{MakesAllTrue};
ghost use Rattle.fer_events.specs.declared.event.Crash.{Crash};
ghost use Rattle.fer_events.specs.Orders.{AreForward};
ghost use Rattle.fer_events.specs.Tables.{Trace};
ghost use Rattle.fer_events.specs.Witness.{IsWitness};
ghost use Rattle.call_events.specs.Resolved.{HasEvents};
ghost use Rattle.predicate_coding.specs.Coding.{coding};
ghost use Rattle.sync_parts.specs.Reaching.{IsReachable};
ghost use Rattle.sync_parts.specs.Sites.{sites_present};
ghost use Rattle.sync_repair.specs.Sets.{AreKept};
ghost use Rattle.ferrite_run.specs.Check.{formula_of};
ghost use Rattle.ferrite_run.specs.Judging.{IsSatisfiable, IsSitedFormula, IsLiftedFormula};
ghost use Rattle.ferrite_run.specs.Usable.{AreUsable};

use crate::asking::pairs_of;
use crate::question::Question;
use clause_store::Store;
use event_relations::kept_pairs_are_forward;
use fer_events::{Events, Pairs};
use litmus_syntax::{Litmus, Site};
use predicate_coding::{Coded, code};
use std::alloc::{AllocError, Global};
use sync_parts::kept_lists_say_the_same;
use sync_repair::{events_with, kept_pairs_say_what_is_reached, kept_with};

/// The clauses of the test's question where these pairs are kept. Where a crash answers it, values make them true.
fn clauses_of(
    alloc: Global,
    litmus: &Litmus,
    events: &Events,
    pairs: &Pairs,
) -> Result<Store, AllocError>
    requires size { pairs.now.n ≡ length events.now.events }
    requires forward { AreForward pairs.now.n pairs.now.pairs }
    ensures clauses { IfOk result (λ store. store ≡ coding events.now pairs.now.pairs litmus.now.pred litmus.now.want) }
    ensures answered { IfOk result (λ store. (crash : Crash) → IsWitness events.now pairs.now.pairs litmus.now.pred litmus.now.want crash → IsSatisfiable store) }
{
    let Coded { store, .. } = code(alloc, events, pairs, litmus.pred(), litmus.want())?;
    Ok(store)
}

/// The clauses of the question itself.
pub fn plain_clauses(alloc: Global, question: &Question) -> Result<Store, AllocError>
    requires resolved { HasEvents question.now.litmus [] question.now.events }
    requires kept { AreKept question.now.model question.now.events.events question.now.pairs }
    ensures clauses { IfOk result (λ store. store ≡ formula_of question.now) }
    ensures reached { IfOk result (λ store. IsReachable question.now.litmus question.now.model [] → IsSatisfiable store) }
{
    kept_pairs_are_forward();
    kept_lists_say_the_same();
    let store = clauses_of(alloc, &question.litmus, &question.events, &question.pairs)?;
    Ok(store)
}

/// The clauses of the question of the test with these sites.
pub fn sited_clauses(
    alloc: Global,
    question: &Question,
    present: &[Site],
) -> Result<Store, AllocError>
    requires syncs { AreSyncs present.now }
    requires outside { StandOutside question.now.litmus.body present.now }
    requires resolved { (t : Trace) × HasEvents question.now.litmus present.now t }
    ensures clauses { IfOk result (IsSitedFormula question.now present.now) }
    ensures reached { IfOk result (λ store. IsReachable question.now.litmus question.now.model present.now → IsSatisfiable store) }
{
    kept_pairs_are_forward();
    kept_lists_say_the_same();
    let events = events_with(alloc, &question.litmus, present)?;
    let pairs = pairs_of(alloc, &events, &question.model)?;
    let store = clauses_of(alloc, &question.litmus, &events, &pairs)?;
    Ok(store)
}

/// The clauses of the events with all sites, where the pairs are kept that are kept with those of the set.
pub fn lifted_clauses(
    alloc: Global,
    question: &Question,
    sites: &[Site],
    set: &[bool],
) -> Result<Store, AllocError>
    requires usable { AreUsable question.now sites.now }
    ensures clauses { IfOk result (IsLiftedFormula question.now sites.now set.now) }
    ensures reached { IfOk result (λ store. IsReachable question.now.litmus question.now.model (sites_present sites.now set.now) → IsSatisfiable store) }
{
    kept_pairs_say_what_is_reached();
    let events = events_with(alloc, &question.litmus, sites)?;
    let pairs = kept_with(
        alloc,
        &question.litmus,
        &question.model,
        sites,
        &events,
        set,
    )?;
    let store = clauses_of(alloc, &question.litmus, &events, &pairs)?;
    Ok(store)
}
