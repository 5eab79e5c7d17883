ghost use Rattle.std.specs.Prelude.{◌≡◌, ◌+◌, ◌==◌, ◌&&◌, ◌++◌, ◌^◌, ◌<◌, ◌≤◌, length, IfOk, OnOk};
ghost use Rattle.std.specs.List.{flat_map, list_any, range_with_len};
ghost use Rattle.fer_events.specs.Tables.{file_count};
ghost use Rattle.value_coding.specs.Readings.{may_hold, read_of};
ghost use Rattle.value_coding.specs.QuestionCells.{is_size, is_key, cells};
ghost use Rattle.value_coding.specs.CellLists.{slots_of, sizes_of, attrs_of, file_segments};
ghost use Rattle.value_coding.specs.CodedCells.{coded_cells};

use crate::cell::{Cell, Cells, CodedCell};
use crate::marking::segments;
use crate::reading::{Part, Reading, may_hold, parts_of, readings};
use crate::writers::writers;
use fer_events::{Event, Events};
use fer_list::Seq;
use litmus_syntax::Pred;
use std::alloc::{AllocError, Global};

/// The cells of a question, with their writers and variables, of which `first` is the first one.
pub fn coded_cells(
    alloc: Global,
    events: &Events,
    pred: &Pred,
    first: u32,
) -> Result<Cells, AllocError>
    ensures { IfOk result (λ coded. coded ≡ coded_cells events.now.events first (cells events.now pred.now)) }
{
    let cells = question_cells(alloc, events, pred)?;
    let coded = with_writers(alloc, events, cells.as_slice(), first)?;
    Ok(coded)
}

// The cells with their writers.
#[tactic(auto, using(crate::proofs::CellSteps::coded_more))]
fn with_writers(
    alloc: Global,
    events: &Events,
    cells: &[Cell],
    first: u32,
) -> Result<Cells, AllocError>
    ensures { IfOk result (λ coded. coded ≡ coded_cells events.now.events first cells.now) }
{
    events.keeps_rules();
    let mut coded = Seq::new(alloc);
    let mut next = first;
    for cell in cells {
        let writers = writers(alloc, events.events(), *cell)?;
        let count = writers.len() as u32 + 1;
        coded.push(CodedCell {
            cell: *cell,
            first: next,
            writers,
        })?;
        next = behind(next, count)?;
    }
    Ok(coded)
}

/// The variable behind `count` others from `first` on. Where there is no such number, memory for them is wanting.
pub fn behind(first: u32, count: u32) -> Result<u32, AllocError>
    ensures { IfOk result (λ next. next ≡ first + count) }
{
    match first.checked_add(count) {
        None => Err(AllocError),
        Some(next) => Ok(next),
    }
}

fn question_cells(alloc: Global, events: &Events, pred: &Pred) -> Result<Vec<Cell>, AllocError>
    ensures { IfOk result (λ found. found.items ≡ cells events.now pred.now) }
{
    let readings = readings(alloc, events, pred)?;
    let readings = readings.as_slice();
    let mut cells = slot_cells(alloc, events, readings)?;
    push_sizes(alloc, &mut cells, events, readings)?;
    push_attrs(alloc, &mut cells, events, readings)?;
    push_segments(alloc, &mut cells, events, readings)?;
    Ok(cells)
}

fn slot_cells(alloc: Global, events: &Events, readings: &[Reading]) -> Result<Vec<Cell>, AllocError>
    ensures { IfOk result (λ found. found.items ≡ slots_of events.now readings.now) }
{
    events.keeps_rules();
    (0..events.slots().len() as u32)
        .filter(|slot| reads_slot(readings, *slot))
        .map(|slot| Cell::SlotOf { slot })
        .collect(alloc)
}

fn reads_slot(readings: &[Reading], slot: u32) -> bool
    ensures { result ≡ list_any (λ r. r.0 == slot) readings.now }
{
    readings.iter().any(|reading| reading.0 == slot)
}

// Adds the cells of sizes.
fn push_sizes(
    alloc: Global,
    cells: &mut Vec<Cell>,
    events: &Events,
    readings: &[Reading],
) -> Result<(), AllocError>
    ensures { OnOk result (cells.new.items ≡ cells.old.items ++ sizes_of events.now readings.now) }
{
    let sizes = size_cells(alloc, events, readings)?;
    cells.extend_from_slice(sizes.as_slice())?;
    Ok(())
}

fn size_cells(alloc: Global, events: &Events, readings: &[Reading]) -> Result<Vec<Cell>, AllocError>
    ensures { IfOk result (λ found. found.items ≡ sizes_of events.now readings.now) }
{
    events.keeps_rules();
    (0..events.start().contents().len() as u32)
        .filter(|file| reads_size(events, readings, *file))
        .map(|file| Cell::SizeOf { file })
        .collect(alloc)
}

fn reads_size(events: &Events, readings: &[Reading], file: u32) -> bool
    ensures { result ≡ list_any is_size (read_of events.now readings.now file) }
{
    any_size(events, readings, file)
}

fn any_size(events: &Events, readings: &[Reading], file: u32) -> bool
    ensures { result ≡ list_any (λ r. may_hold events.now r.0 file && is_size r.1) readings.now }
{
    readings.iter().any(|reading| may_hold(events, reading.0, file) && is_size(reading.1))
}

fn is_size(part: Part) -> bool
    ensures { result ≡ is_size part }
{
    match part {
        Part::Size => true,
        _ => false,
    }
}

// Adds the cells of attributes.
#[tactic(auto, using(crate::proofs::CellSteps::flat_none, crate::proofs::CellSteps::flat_more))]
fn push_attrs(
    alloc: Global,
    cells: &mut Vec<Cell>,
    events: &Events,
    readings: &[Reading],
) -> Result<(), AllocError>
    ensures { OnOk result (cells.new.items ≡ cells.old.items ++ flat_map (attrs_of events.now readings.now) (range_with_len 0 (file_count events.now))) }
{
    events.keeps_rules();
    for file in 0..events.start().contents().len() as u32 {
        let attrs = attr_cells(alloc, events, readings, file)?;
        cells.extend_from_slice(attrs.as_slice())?;
    }
    Ok(())
}

fn attr_cells(
    alloc: Global,
    events: &Events,
    readings: &[Reading],
    file: u32,
) -> Result<Vec<Cell>, AllocError>
    ensures { IfOk result (λ found. found.items ≡ attrs_of events.now readings.now file) }
{
    events.keeps_rules();
    (0..events.keys().len() as u32)
        .filter(|key| reads_key(events, readings, file, *key))
        .map(|key| Cell::AttrOf { file, key })
        .collect(alloc)
}

fn reads_key(events: &Events, readings: &[Reading], file: u32, key: u32) -> bool
    ensures { result ≡ list_any (is_key key) (read_of events.now readings.now file) }
{
    any_key(events, readings, file, key)
}

fn any_key(events: &Events, readings: &[Reading], file: u32, key: u32) -> bool
    ensures { result ≡ list_any (λ r. may_hold events.now r.0 file && is_key key r.1) readings.now }
{
    readings.iter().any(|reading| may_hold(events, reading.0, file) && is_key(reading.1, key))
}

fn is_key(part: Part, key: u32) -> bool
    ensures { result ≡ is_key key part }
{
    match part {
        Part::Key { key: number } => number == key,
        _ => false,
    }
}

// Adds the cells of segments.
#[tactic(auto, using(crate::proofs::CellSteps::flat_none, crate::proofs::CellSteps::flat_more))]
fn push_segments(
    alloc: Global,
    cells: &mut Vec<Cell>,
    events: &Events,
    readings: &[Reading],
) -> Result<(), AllocError>
    ensures { OnOk result (cells.new.items ≡ cells.old.items ++ flat_map (file_segments events.now readings.now) (range_with_len 0 (file_count events.now))) }
{
    events.keeps_rules();
    for file in 0..events.start().contents().len() as u32 {
        let parts = parts_of(alloc, events, readings, file)?;
        let found = segments(alloc, events.events(), parts.as_slice(), file)?;
        cells.extend_from_slice(found.as_slice())?;
    }
    Ok(())
}
