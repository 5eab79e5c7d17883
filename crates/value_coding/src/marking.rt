ghost use Rattle.std.specs.Prelude.{◌≡◌, ℕ, ◌+◌, ◌-◌, ◌<◌, ◌≤◌, ◌&&◌, ◌||◌, ◌==◌, false, nat_le, nat_lt, length, vec_len, IfOk};
ghost use Rattle.std.specs.List.{flat_map, list_any, prefix_len, range_with_len};
ghost use Rattle.value_coding.specs.Undivided.{edges_of};
ghost use Rattle.value_coding.specs.Segments.{has_place, part_edges, event_edges, edges_in, is_in_part};
ghost use Rattle.value_coding.specs.Runs.{is_edge};
ghost use Rattle.value_coding.specs.Marks.{marked, begins_marked, goes_on_marked, marked_run, marked_runs};
ghost use Rattle.value_coding.specs.CellLists.{segments_of};

use crate::cell::Cell;
use crate::reading::Part;
use crate::writers::carries;
use fer_events::{Effect, Event};
use std::alloc::{AllocError, Global};

/// How many places a file has.
const FILE_PLACES: usize = 65_536;

/// The segments of a file of which these parts are read: the longest runs of the places that are read and have no edge
/// inside, ascending. It goes once through the places up to the last one that is read.
pub fn segments(
    alloc: Global,
    events: &[Event],
    parts: &[Part],
    file: u32,
) -> Result<Vec<Cell>, AllocError>
    ensures { IfOk result (λ cells. cells.items ≡ segments_of events.now parts.now file) }
{
    let end = end_of(parts);
    let reads = read_marks(alloc, parts, end)?;
    let edges = edge_marks(alloc, events, parts, file, end)?;
    let cells = marked_runs(alloc, reads.as_slice(), edges.as_slice(), file)?;
    Ok(cells)
}

// A place behind all that are read.
fn end_of(parts: &[Part]) -> usize
    ensures within { result ≤ 65536 }
    ensures behind { (place : ℕ) → result ≤ place → place < 65536 → is_in_part parts.now place ≡ false }
{
    let mut end = 0;
    for part in parts {
        end = later(end, part_end(*part));
    }
    end
}

fn later(first: usize, second: usize) -> usize
    ensures first { first ≤ result }
    ensures second { second ≤ result }
    ensures within { first ≤ 65536 → second ≤ 65536 → result ≤ 65536 }
{
    if first < second { second } else { first }
}

fn part_end(part: Part) -> usize
    ensures within { result ≤ 65536 }
    ensures behind { (place : ℕ) → result ≤ place → place < 65536 → has_place place part ≡ false }
{
    match part {
        Part::Places { at, len } => FILE_PLACES.min((at as usize).saturating_add(len)),
        _ => 0,
    }
}

// A mark for each place that is read.
fn read_marks(alloc: Global, parts: &[Part], end: usize) -> Result<Vec<bool>, AllocError>
    ensures len { IfOk result (λ marks. vec_len marks ≡ end) }
    ensures marks { IfOk result (λ marks. (place : ℕ) → place < end → marked marks.items place ≡ is_in_part parts.now place) }
{
    let mut marks = vec![in alloc; false; end]?;
    for part in parts {
        mark_part(marks.as_mut_slice(), *part);
    }
    Ok(marks)
}

fn mark_part(marks: &mut [bool], part: Part)
    ensures len { length marks.new ≡ length marks.old }
    ensures marks { (place : ℕ) → place < length marks.old → marked marks.new place ≡ (marked marks.old place || has_place place part) }
{
    match part {
        Part::Places { at, len } => mark_places(
            marks,
            at as usize,
            (at as usize).saturating_add(len),
        ),
        _ => {}
    }
}

#[tactic(auto, using(crate::proofs::MarkSteps::place_more, crate::proofs::MarkSteps::places_all))]
fn mark_places(marks: &mut [bool], start: usize, end: usize)
    ensures len { length marks.new ≡ length marks.old }
    ensures marks { (place : ℕ) → place < length marks.old → marked marks.new place ≡ (marked marks.old place || (nat_le start place && nat_lt place end)) }
{
    let stop = end.min(marks.len());
    let first = start.min(stop);
    for place in first..stop {
        marks[place] = true;
    }
}

// A mark for each edge.
fn edge_marks(
    alloc: Global,
    events: &[Event],
    parts: &[Part],
    file: u32,
    end: usize,
) -> Result<Vec<bool>, AllocError>
    ensures len { IfOk result (λ marks. vec_len marks ≡ end) }
    ensures marks { IfOk result (λ marks. (place : ℕ) → place < end → marked marks.items place ≡ is_edge (edges_in events.now parts.now file) place) }
{
    let mut marks = vec![in alloc; false; end]?;
    mark_events(marks.as_mut_slice(), events, file);
    mark_parts(marks.as_mut_slice(), parts);
    Ok(marks)
}

#[tactic(auto, using(crate::proofs::MarkSteps::edges_more, crate::proofs::MarkSteps::or_none))]
fn mark_events(marks: &mut [bool], events: &[Event], file: u32)
    ensures len { length marks.new ≡ length marks.old }
    ensures marks { (place : ℕ) → place < length marks.old → marked marks.new place ≡ (marked marks.old place || is_edge (flat_map (event_edges file) events.now) place) }
{
    for event in events {
        mark_event(marks, event, file);
    }
}

fn mark_event(marks: &mut [bool], event: &Event, file: u32)
    ensures len { length marks.new ≡ length marks.old }
    ensures marks { (place : ℕ) → place < length marks.old → marked marks.new place ≡ (marked marks.old place || is_edge (event_edges file event.now) place) }
{
    if carries(event.file, file) {
        mark_effect(marks, &event.effect);
    }
}

fn mark_effect(marks: &mut [bool], effect: &Effect)
    ensures len { length marks.new ≡ length marks.old }
    ensures marks { (place : ℕ) → place < length marks.old → marked marks.new place ≡ (marked marks.old place || is_edge (edges_of effect.now) place) }
{
    match effect {
        Effect::Bytes { at, text } => mark_two(
            marks,
            *at as usize,
            *at as usize + text.as_slice().len(),
        ),
        Effect::Grow { at, text, .. } => mark_two(
            marks,
            *at as usize,
            *at as usize + text.as_slice().len(),
        ),
        Effect::Cut { size } => mark(marks, *size as usize),
        _ => {}
    }
}

#[tactic(auto, using(crate::proofs::MarkSteps::edges_more, crate::proofs::MarkSteps::or_none))]
fn mark_parts(marks: &mut [bool], parts: &[Part])
    ensures len { length marks.new ≡ length marks.old }
    ensures marks { (place : ℕ) → place < length marks.old → marked marks.new place ≡ (marked marks.old place || is_edge (flat_map part_edges parts.now) place) }
{
    for part in parts {
        mark_ends(marks, *part);
    }
}

fn mark_ends(marks: &mut [bool], part: Part)
    ensures len { length marks.new ≡ length marks.old }
    ensures marks { (place : ℕ) → place < length marks.old → marked marks.new place ≡ (marked marks.old place || is_edge (part_edges part) place) }
{
    match part {
        Part::Places { at, len } => {
            if len > 0 {
                mark_two(marks, at as usize, (at as usize).saturating_add(len));
            }
        }
        _ => {}
    }
}

fn mark_two(marks: &mut [bool], first: usize, second: usize)
    ensures len { length marks.new ≡ length marks.old }
    ensures marks { (place : ℕ) → place < length marks.old → marked marks.new place ≡ (marked marks.old place || ((first == place) || (second == place))) }
{
    mark(marks, first);
    mark(marks, second);
}

// Marks the place, if it is one of them.
fn mark(marks: &mut [bool], edge: usize)
    ensures len { length marks.new ≡ length marks.old }
    ensures marks { (place : ℕ) → place < length marks.old → marked marks.new place ≡ (marked marks.old place || (edge == place)) }
{
    if edge < marks.len() {
        marks[edge] = true;
    }
}

// The runs of the places that are read, each cut at the edges.
fn marked_runs(
    alloc: Global,
    reads: &[bool],
    edges: &[bool],
    file: u32,
) -> Result<Vec<Cell>, AllocError>
    requires { length reads.now ≤ 65536 }
    ensures { IfOk result (λ cells. cells.items ≡ marked_runs reads.now edges.now file) }
{
    (0..reads.len() as u32)
        .filter(|place| begins(reads, edges, *place))
        .map(|place| run_from(reads, edges, file, place))
        .collect(alloc)
}

// The run that begins at the place.
fn run_from(reads: &[bool], edges: &[bool], file: u32, place: u32) -> Cell
    requires { length reads.now ≤ 65536 }
    ensures { result ≡ marked_run reads.now edges.now file place }
{
    Cell::Segment {
        file,
        at: place,
        len: 1 + further(reads, edges, place),
    }
}

// For how many places behind this one the run goes on.
fn further(reads: &[bool], edges: &[bool], place: u32) -> u32
    requires { length reads.now ≤ 65536 }
    ensures count { result ≡ prefix_len (goes_on_marked reads.now edges.now) (range_with_len (place + 1) (length reads.now - (place + 1))) }
    ensures few { result ≤ 65536 }
{
    (place as usize + 1..reads.len())
        .take_while(|place| goes_on(reads, edges, *place))
        .count() as u32
}

fn begins(reads: &[bool], edges: &[bool], place: u32) -> bool
    ensures { result ≡ begins_marked reads.now edges.now place }
{
    let place = place as usize;
    if !marked(reads, place) {
        return false;
    }
    if marked(edges, place) || place == 0 {
        return true;
    }
    !marked(reads, place - 1)
}

fn goes_on(reads: &[bool], edges: &[bool], place: usize) -> bool
    ensures { result ≡ goes_on_marked reads.now edges.now place }
{
    marked(reads, place) && !marked(edges, place)
}

fn marked(marks: &[bool], place: usize) -> bool
    ensures { result ≡ marked marks.now place }
{
    match marks.get(place) {
        None => false,
        Some(mark) => *mark,
    }
}
