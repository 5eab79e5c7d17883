ghost use Rattle.std.specs.Prelude.{◌≡◌, ◌+◌, ◌-◌, ◌<◌, ◌≤◌, ◌^◌, ◌∷◌, ◌++◌, [], true, length, filter, nat_lt, OnOk, IfOk, All};
ghost use Rattle.clause_store.specs.Clauses.{InVars, negated};
ghost use Rattle.fer_events.specs.Tables.{file_count};
ghost use Rattle.order_coding.specs.Growth.{joined};
ghost use Rattle.predicate_coding.specs.Asking.{is_unknown, reads, reads_file};
ghost use Rattle.predicate_coding.specs.CellChoices.{yes_lit, candidates, candidates_below};
ghost use Rattle.predicate_coding.specs.Fits.{unsuited, misfits, fits_unless, fits_lit, fits_clauses};
ghost use Rattle.predicate_coding.specs.Growing.{if_unsuited, if_read, apart, IsCoded, AreCoded};

use crate::asked::Asked;
use crate::choices::{choice_suits, last_lit, reads, writer_count};
use clause_store::{Lit, Store};
use fer_events::Events;
use std::alloc::{AllocError, Global};
use value_coding::{CodedCell, may_hold};

/// A variable as a literal.
pub fn lit(var: u32) -> Lit
    ensures { result ≡ yes_lit var }
{
    Lit {
        var,
        positive: true,
    }
}

/// The files that the slot may hold.
pub fn candidates(alloc: Global, events: &Events, slot: u32) -> Result<Vec<u32>, AllocError>
    ensures { IfOk result (λ files. files.items ≡ candidates events.now slot) }
{
    events.keeps_rules();
    (0..events.start().contents().len() as u32)
        .filter(|file| may_hold(events, slot, *file))
        .collect(alloc)
}

/// The variable that says that the file fits, `first` being that of the first candidate.
pub fn fits_of(events: &Events, files: &[u32], slot: u32, first: u32, file: u32) -> Lit
    requires files { files.now ≡ candidates events.now slot }
    requires there { file < file_count events.now }
    requires room { first + length files.now < 2 ^ 32 }
    ensures { result ≡ fits_lit events.now slot first file }
{
    lit(first + count_below(files, file))
}

fn count_below(files: &[u32], file: u32) -> u32
    requires { length files.now < 2 ^ 32 }
    ensures count { result ≡ length (filter (λ f. nat_lt f file) files.now) }
    ensures few { result ≤ length files.now }
{
    files.iter().filter(|f| **f < file).count() as u32
}

// Adds the literal of this choice, if its value doesn't suit.
fn push_unsuited(
    out: &mut Vec<Lit>,
    events: &Events,
    asked: &Asked,
    c: &CodedCell,
    j: u32,
) -> Result<(), AllocError>
    requires room { c.now.first + j < 2 ^ 32 }
    requires coded { IsCoded events.now (2 ^ 32) c.now }
    requires read { reads_file asked.now c.now.cell ≡ true }
    ensures { OnOk result (out.new.items ≡ out.old.items ++ if_unsuited events.now asked.now c.now j) }
{
    if !choice_suits(events, asked, c, j) {
        out.push(last_lit(c, j))?;
    }
    Ok(())
}

// Adds the literals of a cell's choices whose value doesn't suit.
fn push_cell(
    out: &mut Vec<Lit>,
    events: &Events,
    asked: &Asked,
    c: &CodedCell,
) -> Result<(), AllocError>
    requires coded { IsCoded events.now (2 ^ 32 - 1) c.now }
    requires read { reads_file asked.now c.now.cell ≡ true }
    ensures { OnOk result (out.new.items ≡ out.old.items ++ unsuited events.now asked.now c.now) }
{
    for j in 0..writer_count(c) + 1 {
        push_unsuited(out, events, asked, c, j)?;
    }
    Ok(())
}

// The same of a cell, if it is read of the file.
fn push_read(
    out: &mut Vec<Lit>,
    events: &Events,
    asked: &Asked,
    file: u32,
    c: &CodedCell,
) -> Result<(), AllocError>
    requires { IsCoded events.now (2 ^ 32 - 1) c.now }
    ensures { OnOk result (out.new.items ≡ out.old.items ++ if_read events.now asked.now file c.now) }
{
    if reads(asked, file, c.cell) {
        push_cell(out, events, asked, c)?;
    }
    Ok(())
}

// Adds the misfits of a file.
fn push_misfits(
    out: &mut Vec<Lit>,
    events: &Events,
    asked: &Asked,
    cells: &[CodedCell],
    file: u32,
) -> Result<(), AllocError>
    requires { AreCoded events.now (2 ^ 32 - 1) cells.now }
    ensures { OnOk result (out.new.items ≡ out.old.items ++ misfits events.now cells.now asked.now file) }
{
    for c in cells {
        push_read(out, events, asked, file, c)?;
    }
    Ok(())
}

// Writes that the first literal and another aren't both true.
fn code_apart(store: &mut Store, fits: Lit, misfits: &[Lit]) -> Result<(), AllocError>
    requires first { InVars store.old.vars fits }
    requires named { All (InVars store.old.vars) misfits.now }
    ensures { OnOk result (store.new ≡ joined store.old (apart fits misfits.now)) }
{
    for misfit in misfits {
        store.add(&[fits.negated(), misfit.negated()])?;
    }
    Ok(())
}

// Writes that the first literal is true exactly where none of the others is; `all` has all of them.
fn code_unless(store: &mut Store, fits: Lit, misfits: &[Lit], all: &[Lit]) -> Result<(), AllocError>
    requires first { InVars store.old.vars fits }
    requires named { All (InVars store.old.vars) misfits.now }
    requires all { all.now ≡ fits ∷ misfits.now }
    ensures { OnOk result (store.new ≡ joined store.old (fits_unless fits misfits.now)) }
{
    code_apart(store, fits, misfits)?;
    store.add(all)?;
    Ok(())
}

fn is_unknown(asked: &Asked) -> bool
    ensures { result ≡ is_unknown asked.now }
{
    match asked {
        Asked::Attribute { key: None, .. } => true,
        _ => false,
    }
}

// Writes that the literal is true exactly where the file has what is asked.
fn code_known(
    alloc: Global,
    store: &mut Store,
    events: &Events,
    cells: &[CodedCell],
    asked: &Asked,
    fits: Lit,
    file: u32,
) -> Result<(), AllocError>
    requires coded { AreCoded events.now store.old.vars cells.now }
    requires first { InVars store.old.vars fits }
    ensures { OnOk result (store.new ≡ joined store.old (fits_unless fits (misfits events.now cells.now asked.now file))) }
{
    let _vars = store.vars();
    let mut all = Vec::new(alloc);
    all.push(fits)?;
    push_misfits(&mut all, events, asked, cells, file)?;
    let all = all.as_slice();
    code_unless(store, fits, &all[1..], all)?;
    Ok(())
}

/// Writes that the candidate fits exactly where it has what is asked. A key that is asked for may have no number.
pub fn code_fits(
    alloc: Global,
    store: &mut Store,
    events: &Events,
    cells: &[CodedCell],
    asked: &Asked,
    slot: u32,
    first: u32,
    fits: Lit,
    file: u32,
) -> Result<(), AllocError>
    requires coded { AreCoded events.now store.old.vars cells.now }
    requires named { InVars store.old.vars fits }
    requires fits { fits ≡ fits_lit events.now slot first file }
    ensures { OnOk result (store.new ≡ joined store.old (fits_clauses events.now cells.now first asked.now slot file)) }
{
    if is_unknown(asked) {
        store.add(&[fits.negated()])?;
    } else {
        code_known(alloc, store, events, cells, asked, fits, file)?;
    }
    Ok(())
}
