ghost use Rattle.std.specs.Prelude.{◌≡◌, ◌+◌, ◌-◌, ◌≤◌, ◌==◌, if◌then◌else◌, nat_le, Some, length, take, drop, bytes_eq, slice_index, unwrap_or, replicate};
ghost use Rattle.std.specs.Option.{option_map_or};
ghost use Rattle.std.specs.List.{list_all};
ghost use Rattle.fer_events.specs.States.{start_state, value_set};
ghost use Rattle.fer_events.specs.Truth.{size_of};
ghost use Rattle.value_coding.specs.declared.cell.Cell.TheVariants.{SlotOf, SizeOf, AttrOf, Segment};
ghost use Rattle.value_coding.specs.Cells.{Held, Sized, Valued, IsThere, held_by, attr_of, bytes_of};
ghost use Rattle.value_coding.specs.Writers.{given, value_by, has_all};
ghost use Rattle.value_coding.specs.Texts.{is_text};
ghost use Rattle.value_coding.specs.TextPlaces.{has_from};

use crate::writers::{carries, has_all};
use fer_events::{AttrValue, Effect, Event, Events};

/// The file that the writer puts into the slot; without a writer, that of the start.
pub fn slot_value(events: &Events, slot: u32, writer: Option<u32>) -> Option<u32>
    ensures { Held result ≡ value_by events.now (SlotOf slot) writer }
{
    match writer {
        None => start_slot(events, slot),
        Some(number) => slot_by(events, slot, number),
    }
}

fn slot_by(events: &Events, slot: u32, number: u32) -> Option<u32>
    ensures { Held result ≡ value_by events.now (SlotOf slot) (Some number) }
{
    match events.events().get((number as usize).saturating_sub(1)) {
        None => start_slot(events, slot),
        Some(event) => slot_after(event, slot, start_slot(events, slot)),
    }
}

// The file that the slot holds after the event.
fn slot_after(event: &Event, slot: u32, before: Option<u32>) -> Option<u32>
    ensures { Held result ≡ unwrap_or (given (SlotOf slot) event.now) (Held before) }
{
    if !carries(event.slot, slot) {
        return before;
    }
    match &event.effect {
        Effect::PutName => event.file,
        Effect::ClearName => None,
        _ => before,
    }
}

fn start_slot(events: &Events, slot: u32) -> Option<u32>
    ensures { result ≡ held_by (start_state events.now) slot }
{
    match events.start().slots().get(slot as usize) {
        None => None,
        Some(held) => *held,
    }
}

/// The size that the writer gives the file; without a writer, that of the start.
pub fn size_value(events: &Events, file: u32, writer: Option<u32>) -> u32
    ensures { Sized result ≡ value_by events.now (SizeOf file) writer }
{
    match writer {
        None => start_size(events, file),
        Some(number) => size_by(events, file, number),
    }
}

fn size_by(events: &Events, file: u32, number: u32) -> u32
    ensures { Sized result ≡ value_by events.now (SizeOf file) (Some number) }
{
    match events.events().get((number as usize).saturating_sub(1)) {
        None => start_size(events, file),
        Some(event) => size_after(event, file, start_size(events, file)),
    }
}

// The size of the file after the event.
fn size_after(event: &Event, file: u32, before: u32) -> u32
    ensures { Sized result ≡ unwrap_or (given (SizeOf file) event.now) (Sized before) }
{
    if !carries(event.file, file) {
        return before;
    }
    match &event.effect {
        Effect::Grow { size, .. } => *size,
        Effect::Cut { size } => *size,
        _ => before,
    }
}

fn start_size(events: &Events, file: u32) -> u32
    ensures { result ≡ size_of (start_state events.now) file }
{
    events.keeps_rules();
    match events.start().contents().get(file as usize) {
        None => 0,
        Some(content) => content.len() as u32,
    }
}

/// The value that the writer gives the file's key; without a writer, that of the start.
pub fn attr_value(events: &Events, file: u32, key: u32, writer: Option<u32>) -> Option<u32>
    requires { IsThere events.now (AttrOf file key) }
    ensures { Valued result ≡ value_by events.now (AttrOf file key) writer }
{
    match writer {
        None => start_attr(events, file, key),
        Some(number) => attr_by(events, file, key, number),
    }
}

fn attr_by(events: &Events, file: u32, key: u32, number: u32) -> Option<u32>
    requires { IsThere events.now (AttrOf file key) }
    ensures { Valued result ≡ value_by events.now (AttrOf file key) (Some number) }
{
    match events.events().get((number as usize).saturating_sub(1)) {
        None => start_attr(events, file, key),
        Some(event) => attr_after(event, file, key, start_attr(events, file, key)),
    }
}

// The value of the file's key after the event.
fn attr_after(event: &Event, file: u32, key: u32, before: Option<u32>) -> Option<u32>
    ensures { Valued result ≡ unwrap_or (given (AttrOf file key) event.now) (Valued before) }
{
    if !carries(event.file, file) {
        return before;
    }
    match &event.effect {
        Effect::SetAttr { key: set, value } => set_value(*set == key, *value, before),
        _ => before,
    }
}

fn set_value(sets: bool, value: u32, before: Option<u32>) -> Option<u32>
    ensures { result ≡ (if sets then Some value else before) }
{
    if sets { Some(value) } else { before }
}

fn start_attr(events: &Events, file: u32, key: u32) -> Option<u32>
    requires { IsThere events.now (AttrOf file key) }
    ensures { result ≡ attr_of (start_state events.now) file key }
{
    value_set(events.start().attrs(), file, key)
}

fn value_set(attrs: &[AttrValue], file: u32, key: u32) -> Option<u32>
    ensures { result ≡ value_set attrs.now file key }
{
    attrs
        .iter()
        .find(|attr| attr.file == file && attr.key == key)
        .map(|attr| attr.value)
}

/// Whether the bytes that the writer gives the file's segment from `at` on, as many as the text has, are the text;
/// without a writer, those of the start.
pub fn has_text(events: &Events, file: u32, at: u32, text: &[u8], writer: Option<u32>) -> bool
    requires { IsThere events.now (Segment file at (length text.now)) }
    ensures { result ≡ is_text text.now (value_by events.now (Segment file at (length text.now)) writer) }
{
    match writer {
        None => starts_with(events, file, at, text),
        Some(number) => is_text_by(events, file, at, text, number),
    }
}

fn is_text_by(events: &Events, file: u32, at: u32, text: &[u8], number: u32) -> bool
    requires { IsThere events.now (Segment file at (length text.now)) }
    ensures { result ≡ is_text text.now (value_by events.now (Segment file at (length text.now)) (Some number)) }
{
    match events.events().get((number as usize).saturating_sub(1)) {
        None => starts_with(events, file, at, text),
        Some(event) => {
            let before = starts_with(events, file, at, text);
            is_text_after(event, file, at, text, before)
        }
    }
}

// Whether the bytes are the text after the event.
fn is_text_after(event: &Event, file: u32, at: u32, text: &[u8], before: bool) -> bool
    requires { at + length text.now ≤ 65536 }
    ensures { result ≡ option_map_or (is_text text.now) (given (Segment file at (length text.now)) event.now) before }
{
    if !carries(event.file, file) {
        return before;
    }
    match &event.effect {
        Effect::Bytes {
            at: start,
            text: own,
        } => writes_text(*start, own.as_slice(), at, text, before),
        Effect::Grow {
            at: start,
            text: own,
            ..
        } => writes_text(*start, own.as_slice(), at, text, before),
        Effect::Cut { size } => cuts_to(*size, at, text, before),
        _ => before,
    }
}

// Whether the bytes are the text after another text is written.
fn writes_text(start: u32, own: &[u8], at: u32, text: &[u8], before: bool) -> bool
    requires { at + length text.now ≤ 65536 }
    ensures { result ≡ (if has_all at (length text.now) start own.now then bytes_eq (take (length text.now) (drop (at - start) own.now)) text.now else before) }
{
    if !has_all(start, own, at, text.len() as u32) {
        return before;
    }
    part(own, (at - start) as usize, text.len()) == text
}

fn part(own: &[u8], from: usize, len: usize) -> &[u8]
    requires { from + len ≤ length own.now }
    ensures { result.now ≡ take len (drop from own.now) }
{
    &own[from..from + len]
}

// Whether the bytes are the text after a cut.
fn cuts_to(size: u32, at: u32, text: &[u8], before: bool) -> bool
    ensures { result ≡ (if nat_le size at then bytes_eq (replicate (length text.now) 0) text.now else before) }
{
    if size > at {
        return before;
    }
    is_zero(text)
}

fn is_zero(text: &[u8]) -> bool
    ensures { result ≡ list_all (λ b. b == 0) text.now }
{
    text.iter().all(|b| *b == 0)
}

// Whether the bytes at the start are the text.
fn starts_with(events: &Events, file: u32, at: u32, text: &[u8]) -> bool
    requires { IsThere events.now (Segment file at (length text.now)) }
    ensures { result ≡ bytes_eq (bytes_of (start_state events.now) file at (length text.now)) text.now }
{
    events.keeps_rules();
    has_at(
        events.start().contents()[file as usize].as_slice(),
        at as usize,
        text,
    )
}

// Whether the bytes from a place on are the text, where those behind the content's end are zero.
fn has_at(content: &[u8], at: usize, text: &[u8]) -> bool
    requires { at + length text.now ≤ 65536 }
    ensures { result ≡ has_from content.now at text.now }
{
    for (i, byte) in text.iter().enumerate() {
        if byte_at(content, at + i) != *byte {
            return false;
        }
    }
    true
}

fn byte_at(content: &[u8], place: usize) -> u8
    ensures { result ≡ slice_index content.now place }
{
    match content.get(place) {
        None => 0,
        Some(byte) => *byte,
    }
}
