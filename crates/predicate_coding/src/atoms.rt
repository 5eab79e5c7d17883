ghost use Rattle.std.specs.Prelude.{◌≡◌, ◌≢◌, ◌≤◌, ◌∷◌, [], Some, length, map, All, OnOk, IfOk};
ghost use Rattle.std.specs.List.{flat_map};
ghost use Rattle.clause_store.specs.Clauses.{InVars, negated};
ghost use Rattle.fer_events.specs.Truth.{same_file};
ghost use Rattle.order_coding.specs.Variables.{order_vars, in_lit};
ghost use Rattle.order_coding.specs.Growth.{joined};
ghost use Rattle.value_coding.specs.WordMarks.{shows, is_mark};
ghost use Rattle.predicate_coding.specs.AtomNodes.{as_same, same_choice, same_choices, same_slots, same_node, marks, marks_in, seen_node};
ghost use Rattle.predicate_coding.specs.CellChoices.{choices};
ghost use Rattle.predicate_coding.specs.Growing.{IsCoded, AreCoded, if_other, if_both, with_node};

use crate::asked::Asked;
use crate::choices::{choice_file, is_slot, last_lit, writer_count};
use crate::fitting::lit;
use crate::slots::{add_vars, code_file_node, code_never};
use clause_store::{Lit, Store};
use fer_events::{Effect, Event, Events};
use std::alloc::{AllocError, Global};
use value_coding::CodedCell;

/// Writes the node of `same`, which is never true where a path has no slot.
pub fn code_same_node(
    alloc: Global,
    store: &mut Store,
    events: &Events,
    cells: &[CodedCell],
    left: Option<u32>,
    right: Option<u32>,
) -> Result<(), AllocError>
    requires { AreCoded events.now store.old.vars cells.now }
    ensures { OnOk result (store.new ≡ with_node store.old (same_node events.now cells.now left right)) }
{
    match left {
        None => code_never(store)?,
        Some(left) => code_same_as(alloc, store, events, cells, left, right)?,
    }
    Ok(())
}

fn code_same_as(
    alloc: Global,
    store: &mut Store,
    events: &Events,
    cells: &[CodedCell],
    left: u32,
    right: Option<u32>,
) -> Result<(), AllocError>
    requires { AreCoded events.now store.old.vars cells.now }
    ensures { OnOk result (store.new ≡ with_node store.old (same_node events.now cells.now (Some left) right)) }
{
    match right {
        None => code_never(store)?,
        Some(right) => code_same_slots(alloc, store, events, cells, left, right)?,
    }
    Ok(())
}

// A slot holds the same file as itself exactly where it holds one.
fn code_same_slots(
    alloc: Global,
    store: &mut Store,
    events: &Events,
    cells: &[CodedCell],
    left: u32,
    right: u32,
) -> Result<(), AllocError>
    requires { AreCoded events.now store.old.vars cells.now }
    ensures { OnOk result (store.new ≡ with_node store.old (same_slots events.now cells.now left right)) }
{
    if left == right {
        let asked = Asked::Presence;
        code_file_node(alloc, store, events, cells, &asked, left)?;
    } else {
        code_two_slots(store, events, cells, left, right)?;
    }
    Ok(())
}

#[tactic(auto, using(crate::proofs::CodeSlots::coded_more))]
fn code_two_slots(
    store: &mut Store,
    events: &Events,
    cells: &[CodedCell],
    left: u32,
    right: u32,
) -> Result<(), AllocError>
    requires coded { AreCoded events.now store.old.vars cells.now }
    requires apart { left ≢ right }
    ensures { OnOk result (store.new ≡ with_node store.old (same_slots events.now cells.now left right)) }
{
    let own = add_vars(store, 1)?;
    for p in cells {
        code_left(store, events, cells, lit(own), left, right, p)?;
    }
    Ok(())
}

// The clauses of this cell with those of the other slot, if it is one of the left slot.
fn code_left(
    store: &mut Store,
    events: &Events,
    cells: &[CodedCell],
    own: Lit,
    left: u32,
    right: u32,
    p: &CodedCell,
) -> Result<(), AllocError>
    requires coded { AreCoded events.now store.old.vars cells.now }
    requires first { IsCoded events.now store.old.vars p.now }
    requires own { InVars store.old.vars own }
    ensures { OnOk result (store.new ≡ joined store.old (if_both events.now own left right cells.now p.now)) }
{
    if is_slot(left, p.cell) {
        code_all_right(store, events, cells, own, right, p)?;
    }
    Ok(())
}

fn code_all_right(
    store: &mut Store,
    events: &Events,
    cells: &[CodedCell],
    own: Lit,
    right: u32,
    p: &CodedCell,
) -> Result<(), AllocError>
    requires coded { AreCoded events.now store.old.vars cells.now }
    requires first { IsCoded events.now store.old.vars p.now }
    requires own { InVars store.old.vars own }
    ensures { OnOk result (store.new ≡ joined store.old (flat_map (if_other events.now own right p.now) cells.now)) }
{
    for q in cells {
        code_right(store, events, own, right, p, q)?;
    }
    Ok(())
}

fn code_right(
    store: &mut Store,
    events: &Events,
    own: Lit,
    right: u32,
    p: &CodedCell,
    q: &CodedCell,
) -> Result<(), AllocError>
    requires first { IsCoded events.now store.old.vars p.now }
    requires second { IsCoded events.now store.old.vars q.now }
    requires own { InVars store.old.vars own }
    ensures { OnOk result (store.new ≡ joined store.old (if_other events.now own right p.now q.now)) }
{
    if is_slot(right, q.cell) {
        code_choices(store, events, own, p, q)?;
    }
    Ok(())
}

fn code_choices(
    store: &mut Store,
    events: &Events,
    own: Lit,
    p: &CodedCell,
    q: &CodedCell,
) -> Result<(), AllocError>
    requires first { IsCoded events.now store.old.vars p.now }
    requires second { IsCoded events.now store.old.vars q.now }
    requires own { InVars store.old.vars own }
    ensures { OnOk result (store.new ≡ joined store.old (same_choices events.now own p.now q.now)) }
{
    let _vars = store.vars();
    for j in 0..writer_count(p) + 1 {
        code_choice(store, events, own, p, q, j)?;
    }
    Ok(())
}

// Where this choice of the one cell is the last one, with each choice of the other.
fn code_choice(
    store: &mut Store,
    events: &Events,
    own: Lit,
    p: &CodedCell,
    q: &CodedCell,
    j: u32,
) -> Result<(), AllocError>
    requires first { IsCoded events.now store.old.vars p.now }
    requires second { IsCoded events.now store.old.vars q.now }
    requires own { InVars store.old.vars own }
    requires there { j ≤ length p.now.writers }
    ensures { OnOk result (store.new ≡ joined store.old (map (same_choice events.now own p.now q.now j) (choices events.now q.now.cell))) }
{
    let _vars = store.vars();
    for k in 0..writer_count(q) + 1 {
        code_pair(store, events, own, p, q, j, k)?;
    }
    Ok(())
}

fn code_pair(
    store: &mut Store,
    events: &Events,
    own: Lit,
    p: &CodedCell,
    q: &CodedCell,
    j: u32,
    k: u32,
) -> Result<(), AllocError>
    requires first { IsCoded events.now store.old.vars p.now }
    requires second { IsCoded events.now store.old.vars q.now }
    requires own { InVars store.old.vars own }
    requires left { j ≤ length p.now.writers }
    requires right { k ≤ length q.now.writers }
    ensures { OnOk result (store.new ≡ joined store.old (same_choice events.now own p.now q.now j k ∷ [])) }
{
    let _vars = store.vars();
    let same = is_same(choice_file(events, p, j), choice_file(events, q, k));
    store.add(&[
        last_lit(p, j).negated(),
        last_lit(q, k).negated(),
        as_same(own, same),
    ])?;
    Ok(())
}

fn is_same(left: Option<u32>, right: Option<u32>) -> bool
    ensures { result ≡ same_file left right }
{
    match (left, right) {
        (Some(left), Some(right)) => left == right,
        _ => false,
    }
}

fn as_same(own: Lit, same: bool) -> Lit
    ensures { result ≡ as_same own same }
{
    if same { own } else { own.negated() }
}

/// Writes the node of `seen`: it is true exactly where a mark of the word is in.
pub fn code_seen(
    alloc: Global,
    store: &mut Store,
    events: &Events,
    word: Option<u32>,
) -> Result<(), AllocError>
    requires { order_vars (length events.now.events) ≤ store.old.vars }
    ensures { OnOk result (store.new ≡ with_node store.old (seen_node (marks events.now word))) }
{
    events.keeps_rules();
    let marks = marks(alloc, events.events(), word)?;
    code_marks(alloc, store, marks.as_slice())?;
    Ok(())
}

// The marks of the word, and none where no mark has it.
fn marks(alloc: Global, events: &[Event], word: Option<u32>) -> Result<Vec<u32>, AllocError>
    requires { length events.now ≤ 128 }
    ensures { IfOk result (λ found. found.items ≡ marks_in events.now word) }
{
    match word {
        None => Ok(Vec::new(alloc)),
        Some(word) => marks_of(alloc, events, word),
    }
}

fn marks_of(alloc: Global, events: &[Event], word: u32) -> Result<Vec<u32>, AllocError>
    requires { length events.now ≤ 128 }
    ensures { IfOk result (λ found. found.items ≡ marks_in events.now (Some word)) }
{
    (1..events.len() as u32 + 1)
        .filter(|a| is_mark(events, word, *a))
        .collect(alloc)
}

fn is_mark(events: &[Event], word: u32, a: u32) -> bool
    ensures { result ≡ is_mark events.now word a }
{
    match events.get((a as usize).saturating_sub(1)) {
        None => false,
        Some(event) => shows(word, &event.effect),
    }
}

fn shows(word: u32, effect: &Effect) -> bool
    ensures { result ≡ shows word effect.now }
{
    match effect {
        Effect::See { word: seen } => *seen == word,
        _ => false,
    }
}

fn code_marks(alloc: Global, store: &mut Store, marks: &[u32]) -> Result<(), AllocError>
    requires { All (λ e. (1 ≤ e) × (e ≤ store.old.vars)) marks.now }
    ensures { OnOk result (store.new ≡ with_node store.old (seen_node marks.now)) }
{
    let own = lit(add_vars(store, 1)?);
    let some = one_of(alloc, own, marks)?;
    store.add(some.as_slice())?;
    code_each(store, own, marks)?;
    Ok(())
}

// Where the node is true, one of the marks is in.
fn one_of(alloc: Global, own: Lit, marks: &[u32]) -> Result<Vec<Lit>, AllocError>
    ensures { IfOk result (λ clause. clause.items ≡ negated own ∷ map in_lit marks.now) }
{
    let mut clause = Vec::new(alloc);
    clause.push(own.negated())?;
    for mark in marks {
        clause.push(lit(*mark))?;
    }
    Ok(clause)
}

// Where a mark is in, the node is true.
fn code_each(store: &mut Store, own: Lit, marks: &[u32]) -> Result<(), AllocError>
    requires own { InVars store.old.vars own }
    requires marks { All (λ e. (1 ≤ e) × (e ≤ store.old.vars)) marks.now }
    ensures { OnOk result (store.new ≡ joined store.old (map (λ e. negated (in_lit e) ∷ own ∷ []) marks.now)) }
{
    for mark in marks {
        store.add(&[lit(*mark).negated(), own])?;
    }
    Ok(())
}
