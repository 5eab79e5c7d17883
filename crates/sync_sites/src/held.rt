ghost use Rattle.std.specs.Prelude.{◌≡◌, ◌<◌, length, Ok, IfOk, IfSome, All};
ghost use Rattle.fer_events.specs.States.{at_place};
ghost use Rattle.sync_sites.specs.Passing.{held_after, held_upto};

use fer_events::{Effect, Event};
use fer_list::Seq;
use std::alloc::{AllocError, Global};

/// Puts a file, or none, at a slot.
fn hold(held: &mut Seq<Option<u32>>, slot: Option<u32>, file: Option<u32>)
    requires { IfSome slot (λ s. s < length held.old) }
    ensures { held.new ≡ at_place slot (λ _. file) held.old }
{
    if let Some(slot) = slot {
        held.set(slot as usize, file);
    }
}

/// Changes what the slots hold as an event does.
fn take_in(held: &mut Seq<Option<u32>>, event: &Event)
    requires { IfSome event.now.slot (λ s. s < length held.old) }
    ensures { held.new ≡ held_after held.old event.now }
{
    match event.effect {
        Effect::PutName => hold(held, event.slot, event.file),
        Effect::ClearName => hold(held, event.slot, None),
        _ => {}
    }
}

/// The file that each slot holds behind the first calls, as many as the number says.
pub fn held_behind(
    alloc: Global,
    start: &[Option<u32>],
    events: &[Event],
    number: u32,
) -> Result<Seq<Option<u32>>, AllocError>
    requires { All (λ e. IfSome e.slot (λ s. s < length start.now)) events.now }
    ensures { IfOk result (λ held. held ≡ held_upto number start.now events.now) }
{
    let mut held = Seq::from_slice(alloc, start)?;
    for event in events {
        if event.call <= number {
            take_in(&mut held, event);
        }
    }
    Ok(held)
}
