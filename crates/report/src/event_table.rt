ghost use Rattle.std.specs.Prelude.{◌≡◌, ◌<◌, ◌≤◌, ◌++◌, ◌∷◌, [], None, Some, length, OnOk, codes, decimal, filter, slice_get, unwrap_or, MatchOption};
ghost use Rattle.std.specs.List.{flat_map};
ghost use Rattle.litmus_syntax.specs.Texts.{path_text};
ghost use Rattle.fer_events.specs.Paths.{slot_path};
ghost use Rattle.fer_events.specs.Truth.{item_at};
ghost use Rattle.report.specs.EventTable.{kind_word, field, number_field, field_if, path_of, effect_fields, fields, event_line, event_lines, keep_line};
ghost use Rattle.fer_events.specs.Rows.{is_listed, row_upto};

use crate::tokens::{push_field, push_len_field, push_number_behind, push_number_field};
use fer_events::{Effect, Event, Events, Kind, Pairs, SlotName};
use litmus_syntax::{Path, Text, push_path};
use std::alloc::AllocError;

/// The word for a kind.
fn kind_word(kind: Kind) -> &'static [u8]
    ensures { result.now ≡ kind_word kind }
{
    match kind {
        Kind::Write => b"write",
        Kind::Extend => b"extend",
        Kind::Trunc => b"trunc",
        Kind::Attr => b"attr",
        Kind::Link => b"link",
        Kind::Unlink => b"unlink",
        Kind::Fsync => b"fsync",
        Kind::FsyncDir => b"fsyncdir",
        Kind::Sync => b"sync",
        Kind::Mark => b"mark",
    }
}

/// The item at a place, if there is a place and an item.
fn item_at<T>(items: &[T], place: Option<u32>) -> Option<&T>
    ensures { MatchOption result (item_at items.now place ≡ None) (λ x. item_at items.now place ≡ Some x.now) }
{
    match place {
        None => None,
        Some(place) => items.get(place as usize),
    }
}

/// The text at a place of a table, empty where there is none.
fn text_at(table: &[Text], place: u32) -> &[u8]
    ensures { result.now ≡ unwrap_or (slice_get table.now place) [] }
{
    match table.get(place as usize) {
        None => &[],
        Some(text) => text.as_slice(),
    }
}

/// Appends each component of a directory's path behind a `/`: nothing for the root.
fn push_parent(out: &mut Vec<u8>, dirs: &[Path], dir: u32) -> Result<(), AllocError>
    ensures { OnOk result (out.new.items ≡ out.old.items ++ flat_map (λ part. 47 ∷ part) (unwrap_or (slice_get dirs.now dir) [])) }
{
    let Some(path) = dirs.get(dir as usize) else {
        return Ok(());
    };
    if path.len() == 0 {
        return Ok(());
    }
    push_path(out, path)?;
    Ok(())
}

/// Appends the path of a name in a directory.
fn push_slot_path(out: &mut Vec<u8>, dirs: &[Path], slot: &SlotName) -> Result<(), AllocError>
    ensures { OnOk result (out.new.items ≡ out.old.items ++ path_text (slot_path dirs.now slot.now)) }
{
    push_parent(out, dirs, slot.dir)?;
    out.push(b'/')?;
    out.extend_from_slice(slot.name.as_slice())?;
    Ok(())
}

/// Appends the path of the name that an event changes, or of the directory that it waits for.
fn push_path_field(out: &mut Vec<u8>, events: &Events, event: &Event) -> Result<(), AllocError>
    ensures { OnOk result (out.new.items ≡ out.old.items ++ field_if (λ path. field (codes "path") (path_text path)) (path_of events.now event.now)) }
{
    if let Some(slot) = item_at(events.slots(), event.slot) {
        out.extend_from_slice(b" path ")?;
        push_slot_path(out, events.dirs(), slot)?;
        return Ok(());
    }
    if let Some(dir) = item_at(events.dirs(), event.dir) {
        out.extend_from_slice(b" path ")?;
        push_path(out, dir)?;
    }
    Ok(())
}

/// Appends a field of a number that only some events have.
fn push_number_if(out: &mut Vec<u8>, name: &[u8], number: Option<u32>) -> Result<(), AllocError>
    ensures { OnOk result (out.new.items ≡ out.old.items ++ field_if (number_field name.now) number) }
{
    match number {
        None => Ok(()),
        Some(number) => push_number_field(out, name, number),
    }
}

/// Appends the place and the length of bytes.
fn push_place(out: &mut Vec<u8>, at: u32, text: &Text) -> Result<(), AllocError>
    ensures { OnOk result (out.new.items ≡ out.old.items ++ number_field (codes "at") at ++ number_field (codes "len") (length text.now)) }
{
    push_number_field(out, b"at", at)?;
    push_len_field(out, text.len())?;
    Ok(())
}

/// Appends what an event does.
fn push_effect(out: &mut Vec<u8>, events: &Events, effect: &Effect) -> Result<(), AllocError>
    ensures { OnOk result (out.new.items ≡ out.old.items ++ effect_fields events.now effect.now) }
{
    match effect {
        Effect::Bytes { at, text } => push_place(out, *at, text)?,
        Effect::Grow { at, text, size } => {
            push_place(out, *at, text)?;
            push_number_field(out, b"size", *size)?;
        }
        Effect::Cut { size } => push_number_field(out, b"size", *size)?,
        Effect::SetAttr { key, value } => {
            push_field(out, b"key", text_at(events.keys(), *key))?;
            push_number_field(out, b"value", *value)?;
        }
        Effect::See { word } => push_field(out, b"word", text_at(events.words(), *word))?,
        Effect::PutName | Effect::ClearName | Effect::Nothing => {}
    }
    Ok(())
}

/// Appends the fields of an event.
fn push_fields(out: &mut Vec<u8>, events: &Events, event: &Event) -> Result<(), AllocError>
    ensures { OnOk result (out.new.items ≡ out.old.items ++ fields events.now event.now) }
{
    push_path_field(out, events, event)?;
    push_number_if(out, b"file", event.file)?;
    push_number_if(out, b"block", event.block)?;
    push_effect(out, events, &event.effect)?;
    Ok(())
}

/// Appends what an event's line begins with.
fn push_opening(out: &mut Vec<u8>, number: u32, kind: Kind) -> Result<(), AllocError>
    ensures { OnOk result (out.new.items ≡ out.old.items ++ codes "event" ++ 32 ∷ decimal number ++ 32 ∷ kind_word kind) }
{
    out.extend_from_slice(b"event")?;
    push_number_behind(out, number)?;
    out.push(b' ')?;
    out.extend_from_slice(kind_word(kind))?;
    Ok(())
}

/// Appends the line of the event of this number.
fn push_event(
    out: &mut Vec<u8>,
    events: &Events,
    number: u32,
    event: &Event,
) -> Result<(), AllocError>
    ensures { OnOk result (out.new.items ≡ out.old.items ++ event_line events.now number event.now) }
{
    push_opening(out, number, event.kind)?;
    push_fields(out, events, event)?;
    push_number_field(out, b"call", event.call)?;
    push_number_field(out, b"txn", event.txn)?;
    out.push(b'\n')?;
    Ok(())
}

/// Appends a line for each event.
pub fn push_events(out: &mut Vec<u8>, events: &Events) -> Result<(), AllocError>
    ensures { OnOk result (out.new.items ≡ out.old.items ++ event_lines events.now 1 events.now.events) }
{
    events.keeps_rules();
    for (place, event) in events.events().iter().enumerate() {
        push_event(out, events, place as u32 + 1, event)?;
    }
    Ok(())
}

/// Appends the line of a pair.
fn push_pair(out: &mut Vec<u8>, first: u32, second: u32) -> Result<(), AllocError>
    ensures { OnOk result (out.new.items ≡ out.old.items ++ keep_line (first, second)) }
{
    out.extend_from_slice(b"keep")?;
    push_number_behind(out, first)?;
    push_number_behind(out, second)?;
    out.push(b'\n')?;
    Ok(())
}

/// Appends the line of a pair if it is one of the pairs.
fn push_if_listed(
    out: &mut Vec<u8>,
    pairs: &Pairs,
    first: u32,
    second: u32,
) -> Result<(), AllocError>
    requires first { (1 ≤ first) × (first ≤ pairs.now.n) }
    requires second { (1 ≤ second) × (second ≤ pairs.now.n) }
    ensures { OnOk result (out.new.items ≡ out.old.items ++ flat_map keep_line (filter (is_listed pairs.now) ((first, second) ∷ []))) }
{
    if pairs.has(first, second) {
        push_pair(out, first, second)?;
    }
    Ok(())
}

/// Appends a line for each pair with this first number.
fn push_row(out: &mut Vec<u8>, pairs: &Pairs, first: u32) -> Result<(), AllocError>
    requires { (1 ≤ first) × (first ≤ pairs.now.n) }
    ensures { OnOk result (out.new.items ≡ out.old.items ++ flat_map keep_line (row_upto pairs.now first pairs.now.n)) }
{
    for place in 0..pairs.n() {
        push_if_listed(out, pairs, first, place + 1)?;
    }
    Ok(())
}

/// Appends a line for each pair, by the first number, then the second.
pub fn push_pairs(out: &mut Vec<u8>, pairs: &Pairs) -> Result<(), AllocError>
    ensures { OnOk result (out.new.items ≡ out.old.items ++ flat_map keep_line pairs.now.pairs) }
{
    for place in 0..pairs.n() {
        push_row(out, pairs, place + 1)?;
    }
    Ok(())
}
