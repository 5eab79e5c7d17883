ghost use Rattle.std.specs.Prelude.{◌≡◌, ◌∷◌, [], length, replicate, IfOk};
ghost use Rattle.crash_state.specs.Fits.{Fits};

use super::*;
use fer_events::{Effect, Event, Events, Kind, Start};
use fer_list::Seq;
use litmus_syntax::{Pred, Text};
use std::alloc::{AllocError, Global};
use std::test::Fail;

/// The list of one item.
fn one<T: Drop>(alloc: Global, item: T) -> Result<Seq<T>, AllocError>
    ensures { IfOk result (λ s. s ≡ item ∷ []) }
{
    let mut all = Seq::new(alloc);
    all.push(item)?;
    Ok(all)
}

/// The contents of 32 empty files, which are the most that there are.
fn empty_files(alloc: Global) -> Result<Seq<Text>, AllocError>
    ensures { IfOk result (λ s. s ≡ replicate 32 []) }
{
    let mut all = Seq::new(alloc);
    for _file in 0..32_usize {
        all.push(Seq::new(alloc))?;
    }
    Ok(all)
}

/// The mark `m`, and 32 files without a name.
fn trace(alloc: Global) -> Result<Events, AllocError>
    ensures { IfOk result (λ e. length e.events ≡ 1) }
{
    let mark = Event {
        kind: Kind::Mark,
        file: None,
        block: None,
        dir: None,
        slot: None,
        call: 1,
        txn: 1,
        effect: Effect::See { word: 0 },
    };
    let events = one(alloc, mark)?;
    let words = one(alloc, one(alloc, b'm')?)?;
    let contents = empty_files(alloc)?;
    let start = Start::new(Seq::new(alloc), contents, Seq::new(alloc));
    let none = Seq::new(alloc);
    let slots = Seq::new(alloc);
    let keys = Seq::new(alloc);
    Ok(Events::new(start, events, none, slots, keys, words))
}

/// Whether the mark is seen behind its event, and neither before it nor after a reset.
fn is_seen(alloc: Global, state: &mut State, events: &Events) -> Result<bool, AllocError>
    requires fits { Fits state.old events.now }
    requires one { length events.now.events ≡ 1 }
{
    let seen = Pred::Seen {
        word: one(alloc, b'm')?,
    };
    let at_first = state.holds(events, &seen);
    state.apply(events, 1);
    let behind = state.holds(events, &seen);
    state.reset(events);
    Ok(!at_first && behind && !state.holds(events, &seen) && state.fits(events))
}

/// The same of a state and events that are made here.
fn is_seen_from_the_start(alloc: Global) -> Result<bool, AllocError> {
    let events = trace(alloc)?;
    let mut state = State::new(alloc, &events)?;
    is_seen(alloc, &mut state, &events)
}

#[test]
fn mark_is_seen_behind_its_event(rt: HostRuntime) -> Result<(), Fail> {
    let seen = is_seen_from_the_start(rt.alloc())?;
    assert!(rt; seen);
    Ok(())
}
