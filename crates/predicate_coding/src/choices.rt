ghost use Rattle.std.specs.Prelude.{◌≡◌, ◌+◌, ◌-◌, ◌<◌, ◌^◌, ◌==◌, true, false, length, take, drop};
ghost use Rattle.std.specs.Option.{option_map_or};
ghost use Rattle.value_coding.specs.declared.cell.Cell.TheVariants.{Segment};
ghost use Rattle.value_coding.specs.Cells.{IsThere};
ghost use Rattle.value_coding.specs.Texts.{is_text};
ghost use Rattle.value_coding.specs.Writers.{value_by, writers};
ghost use Rattle.value_coding.specs.LastClauses.{named_writer, last_lit};
ghost use Rattle.predicate_coding.specs.Asking.{is_within, is_of, reads_file, reads, suits, size_suits, value_suits};
ghost use Rattle.predicate_coding.specs.CellChoices.{choice_value, file_in, is_slot};

use crate::asked::Asked;
use clause_store::Lit;
use fer_events::Events;
use value_coding::{Cell, CodedCell, attr_value, has_text, size_value, slot_value};

/// The writer that a choice names: 0 names none, the others the writers in their order.
fn named_writer(writers: &[u32], j: u32) -> Option<u32>
    ensures { result ≡ named_writer writers.now j }
{
    if j == 0 {
        return None;
    }
    match writers.get(j as usize - 1) {
        None => None,
        Some(writer) => Some(*writer),
    }
}

/// The literal that says that a choice of a cell is the last one.
pub fn last_lit(c: &CodedCell, j: u32) -> Lit
    requires { c.now.first + j < 2 ^ 32 }
    ensures { result ≡ last_lit c.now.first j }
{
    Lit {
        var: c.first + j,
        positive: true,
    }
}

/// How many writers a cell has.
pub fn writer_count(c: &CodedCell) -> u32
    requires { length c.now.writers < 2 ^ 32 }
    ensures { result ≡ length c.now.writers }
{
    c.writers.len() as u32
}

/// The file that a choice of a slot's cell gives, and none of another cell.
pub fn choice_file(events: &Events, c: &CodedCell, j: u32) -> Option<u32>
    requires { c.now.writers ≡ writers events.now.events c.now.cell }
    ensures { result ≡ file_in (choice_value events.now c.now.cell j) }
{
    file_by(events, c.cell, named_writer(c.writers.as_slice(), j))
}

fn file_by(events: &Events, cell: Cell, writer: Option<u32>) -> Option<u32>
    ensures { result ≡ file_in (value_by events.now cell writer) }
{
    match cell {
        Cell::SlotOf { slot } => slot_value(events, slot, writer),
        _ => None,
    }
}

/// Whether the cell is the slot's.
pub fn is_slot(slot: u32, cell: Cell) -> bool
    ensures { result ≡ is_slot slot cell }
{
    match cell {
        Cell::SlotOf { slot: own } => own == slot,
        _ => false,
    }
}

/// Whether the cell is read of the file.
pub fn reads(asked: &Asked, file: u32, cell: Cell) -> bool
    ensures { result ≡ reads asked.now file cell }
{
    is_of(file, cell) && reads_file(asked, cell)
}

fn is_of(file: u32, cell: Cell) -> bool
    ensures { result ≡ is_of file cell }
{
    match cell {
        Cell::SlotOf { .. } => false,
        Cell::SizeOf { file: own } => own == file,
        Cell::AttrOf { file: own, .. } => own == file,
        Cell::Segment { file: own, .. } => own == file,
    }
}

/// Whether such a cell is read of the file that holds it.
pub fn reads_file(asked: &Asked, cell: Cell) -> bool
    ensures { result ≡ reads_file asked.now cell }
{
    match (asked, cell) {
        (Asked::ItsSize { .. }, Cell::SizeOf { .. }) => true,
        (Asked::Content { .. }, Cell::SizeOf { .. }) => true,
        (Asked::Content { text }, Cell::Segment { at, len, .. }) => is_within(
            0,
            text.as_slice(),
            at,
            len,
        ),
        (Asked::TextAt { .. }, Cell::SizeOf { .. }) => true,
        (Asked::TextAt { start, text }, Cell::Segment { at, len, .. }) => is_within(
            *start,
            text.as_slice(),
            at,
            len,
        ),
        (
            Asked::Attribute {
                key: Some(number),
                ..
            },
            Cell::AttrOf { key, .. },
        ) => key == *number,
        _ => false,
    }
}

// Whether the places are within those of a text.
fn is_within(start: u32, text: &[u8], at: u32, len: u32) -> bool
    ensures { result ≡ is_within start text.now at len }
{
    start <= at && at as u64 + len as u64 <= start as u64 + text.len() as u64
}

/// Whether the value of a choice of a cell that is read is one that is asked for.
pub fn choice_suits(events: &Events, asked: &Asked, c: &CodedCell, j: u32) -> bool
    requires writers { c.now.writers ≡ writers events.now.events c.now.cell }
    requires there { IsThere events.now c.now.cell }
    requires read { reads_file asked.now c.now.cell ≡ true }
    ensures { result ≡ suits asked.now c.now.cell (choice_value events.now c.now.cell j) }
{
    suits_by(events, asked, c.cell, named_writer(c.writers.as_slice(), j))
}

fn suits_by(events: &Events, asked: &Asked, cell: Cell, writer: Option<u32>) -> bool
    requires there { IsThere events.now cell }
    requires read { reads_file asked.now cell ≡ true }
    ensures { result ≡ suits asked.now cell (value_by events.now cell writer) }
{
    match cell {
        Cell::SlotOf { .. } => false,
        Cell::SizeOf { file } => size_suits(asked, size_value(events, file, writer)),
        Cell::AttrOf { file, key } => value_suits(asked, attr_value(events, file, key, writer)),
        Cell::Segment { file, at, len } => segment_suits(events, asked, file, at, len, writer),
    }
}

fn size_suits(asked: &Asked, held: u32) -> bool
    ensures { result ≡ size_suits asked.now held }
{
    match asked {
        Asked::ItsSize { size } => held == *size,
        Asked::Content { text } => held as u64 == text.as_slice().len() as u64,
        Asked::TextAt { start, text } => *start as u64 + text.as_slice().len() as u64
            <= held as u64,
        _ => true,
    }
}

fn value_suits(asked: &Asked, held: Option<u32>) -> bool
    ensures { result ≡ value_suits asked.now held }
{
    match asked {
        Asked::Attribute { value, .. } => is_value(held, *value),
        _ => true,
    }
}

fn is_value(held: Option<u32>, value: u32) -> bool
    ensures { result ≡ option_map_or (λ v. v == value) held false }
{
    match held {
        None => false,
        Some(held) => held == value,
    }
}

fn segment_suits(
    events: &Events,
    asked: &Asked,
    file: u32,
    at: u32,
    len: u32,
    writer: Option<u32>,
) -> bool
    requires there { IsThere events.now (Segment file at len) }
    requires read { reads_file asked.now (Segment file at len) ≡ true }
    ensures { result ≡ suits asked.now (Segment file at len) (value_by events.now (Segment file at len) writer) }
{
    match asked {
        Asked::Content { text } => part_suits(events, 0, text.as_slice(), file, at, len, writer),
        Asked::TextAt { start, text } => part_suits(
            events,
            *start,
            text.as_slice(),
            file,
            at,
            len,
            writer,
        ),
        _ => true,
    }
}

// Whether the segment has its part of a text.
fn part_suits(
    events: &Events,
    start: u32,
    text: &[u8],
    file: u32,
    at: u32,
    len: u32,
    writer: Option<u32>,
) -> bool
    requires there { IsThere events.now (Segment file at len) }
    requires within { is_within start text.now at len ≡ true }
    ensures { result ≡ is_text (take len (drop (at - start) text.now)) (value_by events.now (Segment file at len) writer) }
{
    has_text(events, file, at, part(text, start, at, len), writer)
}

fn part(text: &[u8], start: u32, at: u32, len: u32) -> &[u8]
    requires { is_within start text.now at len ≡ true }
    ensures part { result.now ≡ take len (drop (at - start) text.now) }
    ensures len { length result.now ≡ len }
{
    let from = (at - start) as usize;
    &text[from..from + len as usize]
}
