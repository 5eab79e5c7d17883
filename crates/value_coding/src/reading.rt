ghost use Rattle.std.specs.Prelude.{◌≡◌, ◌&&◌, ◌∷◌, ◌++◌, [], None, map, slice_get, unwrap_or, IfOk, OnOk};
ghost use Rattle.std.specs.List.{list_any};
ghost use Rattle.value_coding.specs.Writers.{carries};
ghost use Rattle.value_coding.specs.Readings.{readings, at_slot, key_part, is_put, may_hold, read_of};
ghost use Rattle.value_coding.specs.declared.reading.Part.TheVariants.{Name, Size, Places};

use crate::writers::carries;
use fer_events::{Effect, Event, Events};
use fer_list::Seq;
use litmus_syntax::Pred;
use std::alloc::{AllocError, Global};

/// A part that an atom reads: which file the name of its path holds, and of that file the size, a key, or places.
#[derive(Clone, Copy, Debug)]
pub enum Part {
    Name,
    Size,
    Key { key: u32 },
    Places { at: u32, len: usize },
}

/// A part that an atom reads, behind the slot of the atom's path.
pub type Reading = (u32, Part);

/// What a question reads, atom by atom.
pub fn readings(alloc: Global, events: &Events, pred: &Pred) -> Result<Vec<Reading>, AllocError>
    ensures { IfOk result (λ out. out.items ≡ readings events.now pred.now) }
{
    let mut out = Vec::new(alloc);
    push_readings(&mut out, events, pred)?;
    Ok(out)
}

// Adds what a part of a question reads.
fn push_readings(out: &mut Vec<Reading>, events: &Events, pred: &Pred) -> Result<(), AllocError>
    ensures { OnOk result (out.new.items ≡ out.old.items ++ readings events.now pred.now) }
{
    match pred {
        Pred::True => {}
        Pred::False => {}
        Pred::Exists { path } => push_parts(out, events.slot_of(path), &[Part::Name])?,
        Pred::Same { left, right } => {
            push_parts(out, events.slot_of(left), &[Part::Name])?;
            push_parts(out, events.slot_of(right), &[Part::Name])?;
        }
        Pred::SizeIs { path, .. } => push_parts(
            out,
            events.slot_of(path),
            &[Part::Name, Part::Size],
        )?,
        Pred::ContentIs { path, text } => push_text(out, events.slot_of(path), 0, text.len())?,
        Pred::BytesAre { path, at, text } => push_text(out, events.slot_of(path), *at, text.len())?,
        Pred::AttrIs { path, key, .. } => push_key(
            out,
            events.slot_of(path),
            events.key_of(key.as_slice()),
        )?,
        Pred::Seen { .. } => {}
        Pred::Not { inner } => push_readings(out, events, inner.get())?,
        Pred::And { left, right } => {
            push_readings(out, events, left.get())?;
            push_readings(out, events, right.get())?;
        }
        Pred::Or { left, right } => {
            push_readings(out, events, left.get())?;
            push_readings(out, events, right.get())?;
        }
    }
    Ok(())
}

// A path without a slot reads nothing.
fn push_parts(out: &mut Vec<Reading>, slot: Option<u32>, parts: &[Part]) -> Result<(), AllocError>
    ensures { OnOk result (out.new.items ≡ out.old.items ++ at_slot slot parts.now) }
{
    match slot {
        None => Ok(()),
        Some(slot) => push_each(out, slot, parts),
    }
}

fn push_each(out: &mut Vec<Reading>, slot: u32, parts: &[Part]) -> Result<(), AllocError>
    ensures { OnOk result (out.new.items ≡ out.old.items ++ map (λ part. (slot, part)) parts.now) }
{
    for part in parts {
        out.push((slot, *part))?;
    }
    Ok(())
}

fn push_text(
    out: &mut Vec<Reading>,
    slot: Option<u32>,
    at: u32,
    len: usize,
) -> Result<(), AllocError>
    ensures { OnOk result (out.new.items ≡ out.old.items ++ at_slot slot (Name ∷ Size ∷ Places at len ∷ [])) }
{
    push_parts(
        out,
        slot,
        &[Part::Name, Part::Size, Part::Places { at, len }],
    )?;
    Ok(())
}

// A key without a number reads nothing.
fn push_key(out: &mut Vec<Reading>, slot: Option<u32>, key: Option<u32>) -> Result<(), AllocError>
    ensures { OnOk result (out.new.items ≡ out.old.items ++ at_slot slot (Name ∷ key_part key)) }
{
    match key {
        None => push_parts(out, slot, &[Part::Name])?,
        Some(key) => push_parts(out, slot, &[Part::Name, Part::Key { key }])?,
    }
    Ok(())
}

/// Whether the file is a candidate of the slot: whether the slot holds it at the start, or an event puts it there.
pub fn may_hold(events: &Events, slot: u32, file: u32) -> bool
    ensures { result ≡ may_hold events.now slot file }
{
    if carries(held_at_start(events, slot), file) {
        return true;
    }
    is_put_there(events.events(), slot, file)
}

// Whether some event puts the file into the slot.
fn is_put_there(events: &[Event], slot: u32, file: u32) -> bool
    ensures { result ≡ list_any (λ e. carries e.slot slot && carries e.file file && is_put e.effect) events.now }
{
    events.iter().any(|event| puts(event, slot, file))
}

// The file that the slot holds at the start.
fn held_at_start(events: &Events, slot: u32) -> Option<u32>
    ensures { result ≡ unwrap_or (slice_get events.now.start.slots slot) None }
{
    match events.start().slots().get(slot as usize) {
        None => None,
        Some(held) => *held,
    }
}

// Whether the event puts the file into the slot.
fn puts(event: &Event, slot: u32, file: u32) -> bool
    ensures { result ≡ (carries event.now.slot slot && carries event.now.file file && is_put event.now.effect) }
{
    carries(event.slot, slot) && carries(event.file, file) && is_put(&event.effect)
}

fn is_put(effect: &Effect) -> bool
    ensures { result ≡ is_put effect.now }
{
    match effect {
        Effect::PutName => true,
        _ => false,
    }
}

/// Of these readings, the parts that are read of a file: those of slots that it is a candidate of.
pub fn parts_of(
    alloc: Global,
    events: &Events,
    readings: &[Reading],
    file: u32,
) -> Result<Seq<Part>, AllocError>
    ensures { IfOk result (λ parts. parts ≡ read_of events.now readings.now file) }
{
    let parts = collect_parts(alloc, events, readings, file)?;
    Ok(Seq::from_vec(parts))
}

fn collect_parts(
    alloc: Global,
    events: &Events,
    readings: &[Reading],
    file: u32,
) -> Result<Vec<Part>, AllocError>
    ensures { IfOk result (λ parts. parts.items ≡ read_of events.now readings.now file) }
{
    readings
        .iter()
        .filter(|reading| may_hold(events, reading.0, file))
        .map(|reading| reading.1)
        .collect(alloc)
}
