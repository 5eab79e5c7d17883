ghost use Rattle.std.specs.Prelude.{◌≡◌, ◌+◌, ◌<◌, ◌≤◌, ◌^◌, ◌∷◌, [], length, OnOk, IfOk};
ghost use Rattle.std.specs.List.{flat_map};
ghost use Rattle.clause_store.specs.Clauses.{InVars, negated};
ghost use Rattle.order_coding.specs.Growth.{joined};
ghost use Rattle.value_coding.specs.Writers.{writers};
ghost use Rattle.value_coding.specs.LastClauses.{last_lit};
ghost use Rattle.value_coding.specs.declared.cell.Cell.TheVariants.{SlotOf};
ghost use Rattle.predicate_coding.specs.CellChoices.{candidates, file_in, choice_value};
ghost use Rattle.predicate_coding.specs.AtomNodes.{as_held, as_held_in, file_node, path_node, never};
ghost use Rattle.predicate_coding.specs.Fits.{fits_clauses};
ghost use Rattle.predicate_coding.specs.Growing.{IsCoded, AreCoded, if_slot, with_node};

use crate::asked::Asked;
use crate::choices::{choice_file, is_slot, last_lit, writer_count};
use crate::fitting::{candidates, code_fits, fits_of, lit};
use crate::reading::read_cells;
use clause_store::{Lit, Store};
use fer_events::Events;
use std::alloc::{AllocError, Global};
use value_coding::CodedCell;

/// Adds this many variables and answers the last one. Where it has no number, memory for it is wanting.
pub fn add_vars(store: &mut Store, count: u32) -> Result<u32, AllocError>
    ensures last { IfOk result (λ last. last ≡ store.old.vars + count) }
    ensures added { OnOk result (store.new ≡ record store.old { vars = store.old.vars + count }) }
{
    match store.vars().checked_add(count) {
        None => Err(AllocError),
        Some(last) => {
            store.raise_vars(last);
            Ok(last)
        }
    }
}

// Writes that where the choice is the last one, the node is as the file fits.
fn code_same(store: &mut Store, last: Lit, fits: Lit, own: Lit) -> Result<(), AllocError>
    requires last { InVars store.old.vars last }
    requires fits { InVars store.old.vars fits }
    requires own { InVars store.old.vars own }
    ensures { OnOk result (store.new ≡ joined store.old ((negated last ∷ negated fits ∷ own ∷ []) ∷ (negated last ∷ fits ∷ negated own ∷ []) ∷ [])) }
{
    store.add(&[last.negated(), fits.negated(), own])?;
    store.add(&[last.negated(), fits, own.negated()])?;
    Ok(())
}

// Writes that where this choice of the slot is the last one, the node is as its file fits, and false without a file.
#[tactic(auto, using(crate::proofs::CodeSlots::choice_there, crate::proofs::CodeSlots::fits_within))]
fn code_choice(
    store: &mut Store,
    events: &Events,
    files: &[u32],
    slot: u32,
    first: u32,
    own: Lit,
    c: &CodedCell,
    j: u32,
) -> Result<(), AllocError>
    requires files { files.now ≡ candidates events.now slot }
    requires cell { c.now.cell ≡ SlotOf slot }
    requires writers { c.now.writers ≡ writers events.now.events c.now.cell }
    requires own { InVars store.old.vars own }
    requires some { 1 ≤ first }
    requires named { first + length files.now ≤ store.old.vars }
    requires last { (1 ≤ c.now.first) × (c.now.first + j ≤ store.old.vars) }
    ensures { OnOk result (store.new ≡ joined store.old (as_held events.now slot first own (last_lit c.now.first j) (file_in (choice_value events.now c.now.cell j)))) }
{
    events.keeps_rules();
    let _vars = store.vars();
    let last = last_lit(c, j);
    match choice_file(events, c, j) {
        None => {
            store.add(&[last.negated(), own.negated()])?;
        }
        Some(file) => {
            let fits = fits_of(events, files, slot, first, file);
            code_same(store, last, fits, own)?;
        }
    }
    Ok(())
}

// The same of every choice of a cell of the slot.
#[tactic(auto, using(crate::proofs::CodeSlots::held_next))]
fn code_choices(
    store: &mut Store,
    events: &Events,
    files: &[u32],
    slot: u32,
    first: u32,
    own: Lit,
    c: &CodedCell,
) -> Result<(), AllocError>
    requires files { files.now ≡ candidates events.now slot }
    requires cell { c.now.cell ≡ SlotOf slot }
    requires coded { IsCoded events.now store.old.vars c.now }
    requires own { InVars store.old.vars own }
    requires some { 1 ≤ first }
    requires named { first + length files.now ≤ store.old.vars }
    ensures { OnOk result (store.new ≡ joined store.old (as_held_in events.now slot first own c.now)) }
{
    let _vars = store.vars();
    for j in 0..writer_count(c) + 1 {
        code_choice(store, events, files, slot, first, own, c, j)?;
    }
    Ok(())
}

// The same of a cell, if it is the slot's.
#[tactic(auto, using(crate::proofs::CodeSlots::slot_is))]
fn code_slot_cell(
    store: &mut Store,
    events: &Events,
    files: &[u32],
    slot: u32,
    first: u32,
    own: Lit,
    c: &CodedCell,
) -> Result<(), AllocError>
    requires files { files.now ≡ candidates events.now slot }
    requires coded { IsCoded events.now store.old.vars c.now }
    requires own { InVars store.old.vars own }
    requires some { 1 ≤ first }
    requires named { first + length files.now ≤ store.old.vars }
    ensures { OnOk result (store.new ≡ joined store.old (if_slot events.now slot first own c.now)) }
{
    if is_slot(slot, c.cell) {
        code_choices(store, events, files, slot, first, own, c)?;
    }
    Ok(())
}

// The same of all cells.
fn code_slots(
    store: &mut Store,
    events: &Events,
    cells: &[CodedCell],
    files: &[u32],
    slot: u32,
    first: u32,
    own: Lit,
) -> Result<(), AllocError>
    requires coded { AreCoded events.now store.old.vars cells.now }
    requires files { files.now ≡ candidates events.now slot }
    requires own { InVars store.old.vars own }
    requires some { 1 ≤ first }
    requires named { first + length files.now ≤ store.old.vars }
    ensures { OnOk result (store.new ≡ joined store.old (flat_map (if_slot events.now slot first own) cells.now)) }
{
    for c in cells {
        code_slot_cell(store, events, files, slot, first, own, c)?;
    }
    Ok(())
}

// Writes which candidates fit, by the cells that the atom reads of any file.
#[tactic(auto, using(crate::proofs::CodeSlots::candidates_there, crate::proofs::CodeSlots::fits_within))]
fn code_each_candidate(
    alloc: Global,
    store: &mut Store,
    events: &Events,
    cells: &[CodedCell],
    asked: &Asked,
    files: &[u32],
    slot: u32,
    first: u32,
) -> Result<(), AllocError>
    requires coded { AreCoded events.now store.old.vars cells.now }
    requires files { files.now ≡ candidates events.now slot }
    requires some { 1 ≤ first }
    requires named { first + length files.now ≤ store.old.vars }
    ensures { OnOk result (store.new ≡ joined store.old (flat_map (fits_clauses events.now cells.now first asked.now slot) files.now)) }
{
    let _vars = store.vars();
    for file in files {
        let fits = fits_of(events, files, slot, first, *file);
        code_fits(alloc, store, events, cells, asked, slot, first, fits, *file)?;
    }
    Ok(())
}

// Writes which candidates fit. What the atom reads of whatever file is picked out first, so that not each candidate goes
// through all cells.
fn code_candidates(
    alloc: Global,
    store: &mut Store,
    events: &Events,
    cells: &[CodedCell],
    asked: &Asked,
    files: &[u32],
    slot: u32,
    first: u32,
) -> Result<(), AllocError>
    requires coded { AreCoded events.now store.old.vars cells.now }
    requires files { files.now ≡ candidates events.now slot }
    requires some { 1 ≤ first }
    requires named { first + length files.now ≤ store.old.vars }
    ensures { OnOk result (store.new ≡ joined store.old (flat_map (fits_clauses events.now cells.now first asked.now slot) files.now)) }
{
    let read = read_cells(alloc, cells, asked)?;
    code_each_candidate(
        alloc,
        store,
        events,
        read.as_slice(),
        asked,
        files,
        slot,
        first,
    )?;
    Ok(())
}

/// Writes the node of an atom that asks something of the file in a slot.
pub fn code_file_node(
    alloc: Global,
    store: &mut Store,
    events: &Events,
    cells: &[CodedCell],
    asked: &Asked,
    slot: u32,
) -> Result<(), AllocError>
    requires { AreCoded events.now store.old.vars cells.now }
    ensures { OnOk result (store.new ≡ with_node store.old (file_node events.now cells.now asked.now slot)) }
{
    events.keeps_rules();
    let files = candidates(alloc, events, slot)?;
    code_with_files(alloc, store, events, cells, asked, slot, files.as_slice())?;
    Ok(())
}

#[tactic(auto, using(crate::proofs::CodeSlots::coded_more))]
fn code_with_files(
    alloc: Global,
    store: &mut Store,
    events: &Events,
    cells: &[CodedCell],
    asked: &Asked,
    slot: u32,
    files: &[u32],
) -> Result<(), AllocError>
    requires coded { AreCoded events.now store.old.vars cells.now }
    requires files { files.now ≡ candidates events.now slot }
    requires few { length files.now ≤ 32 }
    ensures { OnOk result (store.new ≡ with_node store.old (file_node events.now cells.now asked.now slot)) }
{
    let count = files.len() as u32;
    let own = add_vars(store, count + 1)?;
    let first = own - count;
    code_candidates(alloc, store, events, cells, asked, files, slot, first)?;
    code_slots(store, events, cells, files, slot, first, lit(own))?;
    Ok(())
}

/// Writes a node that is never true.
pub fn code_never(store: &mut Store) -> Result<(), AllocError>
    ensures { OnOk result (store.new ≡ with_node store.old never) }
{
    let own = add_vars(store, 1)?;
    store.add(&[lit(own).negated()])?;
    Ok(())
}

/// Writes the node of an atom on a path, which is never true where the path has no slot.
pub fn code_path(
    alloc: Global,
    store: &mut Store,
    events: &Events,
    cells: &[CodedCell],
    asked: &Asked,
    slot: Option<u32>,
) -> Result<(), AllocError>
    requires { AreCoded events.now store.old.vars cells.now }
    ensures { OnOk result (store.new ≡ with_node store.old (path_node events.now cells.now asked.now slot)) }
{
    match slot {
        None => code_never(store)?,
        Some(slot) => code_file_node(alloc, store, events, cells, asked, slot)?,
    }
    Ok(())
}
