ghost use Rattle.std.specs.Prelude.{◌≡◌, ◌≤◌, None, length, is_some, IfOk};
ghost use Rattle.value_coding.specs.Writers.{carries, slot_given, size_given, attr_given, has_all, bytes_given, given, is_writer, writers};

use crate::cell::Cell;
use fer_events::{Effect, Event};
use fer_list::Seq;
use std::alloc::{AllocError, Global};

/// The numbers of the events that write the cell, ascending.
pub fn writers(alloc: Global, events: &[Event], cell: Cell) -> Result<Seq<u32>, AllocError>
    requires { length events.now ≤ 128 }
    ensures found { IfOk result (λ found. found ≡ writers events.now cell) }
    ensures few { IfOk result (λ found. length found ≤ 128) }
{
    let found = collect_writers(alloc, events, cell)?;
    Ok(Seq::from_vec(found))
}

fn collect_writers(alloc: Global, events: &[Event], cell: Cell) -> Result<Vec<u32>, AllocError>
    requires { length events.now ≤ 128 }
    ensures { IfOk result (λ found. found.items ≡ writers events.now cell) }
{
    let count = events.len() as u32;
    (1..count + 1)
        .filter(|a| is_writer(events, cell, *a))
        .collect(alloc)
}

// Whether the event of this number writes the cell.
fn is_writer(events: &[Event], cell: Cell, a: u32) -> bool
    ensures { result ≡ is_writer events.now cell a }
{
    match events.get((a as usize).saturating_sub(1)) {
        None => false,
        Some(event) => writes(event, cell),
    }
}

fn writes(event: &Event, cell: Cell) -> bool
    ensures { result ≡ is_some (given cell event.now) }
{
    match cell {
        Cell::SlotOf { slot } => carries(event.slot, slot) && sets_slot(&event.effect),
        Cell::SizeOf { file } => carries(event.file, file) && sets_size(&event.effect),
        Cell::AttrOf { file, key } => carries(event.file, file) && sets_attr(&event.effect, key),
        Cell::Segment { file, at, len } => carries(event.file, file)
            && sets_bytes(&event.effect, at, len),
    }
}

/// Whether an event carries this number.
pub fn carries(carried: Option<u32>, number: u32) -> bool
    ensures { result ≡ carries carried number }
{
    match carried {
        None => false,
        Some(carried) => carried == number,
    }
}

fn sets_slot(effect: &Effect) -> bool
    ensures { result ≡ is_some (slot_given None effect.now) }
{
    match effect {
        Effect::PutName => true,
        Effect::ClearName => true,
        _ => false,
    }
}

fn sets_size(effect: &Effect) -> bool
    ensures { result ≡ is_some (size_given effect.now) }
{
    match effect {
        Effect::Grow { .. } => true,
        Effect::Cut { .. } => true,
        _ => false,
    }
}

fn sets_attr(effect: &Effect, key: u32) -> bool
    ensures { result ≡ is_some (attr_given key effect.now) }
{
    match effect {
        Effect::SetAttr { key: set, .. } => *set == key,
        _ => false,
    }
}

fn sets_bytes(effect: &Effect, at: u32, len: u32) -> bool
    ensures { result ≡ is_some (bytes_given at len effect.now) }
{
    match effect {
        Effect::Bytes { at: start, text } => has_all(*start, text.as_slice(), at, len),
        Effect::Grow {
            at: start,
            text,
            ..
        } => has_all(*start, text.as_slice(), at, len),
        Effect::Cut { size } => *size <= at,
        _ => false,
    }
}

/// Whether a text at `start` has all of the places from `at` on, `len` of them.
pub fn has_all(start: u32, text: &[u8], at: u32, len: u32) -> bool
    ensures { result ≡ has_all at len start text.now }
{
    start <= at && at as u64 + len as u64 <= start as u64 + text.len() as u64
}
