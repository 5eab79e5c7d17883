ghost use Rattle.std.specs.Prelude.{◌≡◌, ◌+◌, ◌≤◌, length, OnOk};
ghost use Rattle.fer_events.specs.Truth.{slot_number, text_number};
ghost use Rattle.order_coding.specs.Variables.{order_vars};
ghost use Rattle.predicate_coding.specs.declared.asked.Asked.TheVariants.{Presence, ItsSize, Content, TextAt, Attribute};
ghost use Rattle.predicate_coding.specs.Nodes.{node, not_clauses, and_clauses, or_clauses};
ghost use Rattle.predicate_coding.specs.AtomNodes.{path_node, same_node, seen_node, marks, always};
ghost use Rattle.predicate_coding.specs.CellChoices.{yes_lit};
ghost use Rattle.predicate_coding.specs.Growing.{AreCoded, with_node, with_variable};

use crate::asked::Asked;
use crate::atoms::{code_same_node, code_seen};
use crate::fitting::lit;
use crate::slots::{add_vars, code_never, code_path};
use clause_store::Store;
use fer_events::Events;
use litmus_syntax::{Path, Pred, Text, copy_text};
use std::alloc::{AllocError, Global};
use value_coding::CodedCell;

/// Writes the clauses of the predicate's nodes behind those that are there, each behind those of its operands. The last
/// variable is then that of the root.
#[tactic(auto, using(crate::proofs::CodeSlots::coded_more))]
pub fn code_node(
    alloc: Global,
    store: &mut Store,
    events: &Events,
    cells: &[CodedCell],
    pred: &Pred,
) -> Result<(), AllocError>
    requires coded { AreCoded events.now store.old.vars cells.now }
    requires order { order_vars (length events.now.events) ≤ store.old.vars }
    ensures { OnOk result (store.new ≡ with_node store.old (node events.now cells.now pred.now)) }
{
    match pred {
        Pred::True => code_always(store)?,
        Pred::False => code_never(store)?,
        Pred::Exists { path } => code_presence(alloc, store, events, cells, path)?,
        Pred::Same { left, right } => code_same(alloc, store, events, cells, left, right)?,
        Pred::SizeIs { path, size } => code_size(alloc, store, events, cells, path, *size)?,
        Pred::ContentIs { path, text } => code_content(alloc, store, events, cells, path, text)?,
        Pred::BytesAre { path, at, text } => {
            code_bytes(alloc, store, events, cells, path, *at, text)?;
        }
        Pred::AttrIs { path, key, value } => {
            code_attr(alloc, store, events, cells, path, key, *value)?;
        }
        Pred::Seen { word } => code_mark(alloc, store, events, word)?,
        Pred::Not { inner } => {
            code_node(alloc, store, events, cells, inner.get())?;
            join_not(store)?;
        }
        Pred::And { left, right } => {
            code_node(alloc, store, events, cells, left.get())?;
            let left_own = store.vars();
            code_node(alloc, store, events, cells, right.get())?;
            join_and(store, left_own)?;
        }
        Pred::Or { left, right } => {
            code_node(alloc, store, events, cells, left.get())?;
            let left_own = store.vars();
            code_node(alloc, store, events, cells, right.get())?;
            join_or(store, left_own)?;
        }
    }
    Ok(())
}

fn code_always(store: &mut Store) -> Result<(), AllocError>
    ensures { OnOk result (store.new ≡ with_node store.old always) }
{
    let own = add_vars(store, 1)?;
    store.add(&[lit(own)])?;
    Ok(())
}

// A node whose operand has the last variable.
fn join_not(store: &mut Store) -> Result<(), AllocError>
    requires { 1 ≤ store.old.vars }
    ensures { OnOk result (store.new ≡ with_variable store.old (not_clauses (yes_lit (store.old.vars + 1)) (yes_lit store.old.vars))) }
{
    let x = lit(store.vars());
    let own = lit(add_vars(store, 1)?);
    store.add(&[own, x])?;
    store.add(&[own.negated(), x.negated()])?;
    Ok(())
}

// A node whose operands have this variable and the last one.
fn join_and(store: &mut Store, left: u32) -> Result<(), AllocError>
    requires left { (1 ≤ left) × (left ≤ store.old.vars) }
    ensures { OnOk result (store.new ≡ with_variable store.old (and_clauses (yes_lit (store.old.vars + 1)) (yes_lit left) (yes_lit store.old.vars))) }
{
    let x = lit(left);
    let y = lit(store.vars());
    let own = lit(add_vars(store, 1)?);
    store.add(&[own.negated(), x])?;
    store.add(&[own.negated(), y])?;
    store.add(&[own, x.negated(), y.negated()])?;
    Ok(())
}

fn join_or(store: &mut Store, left: u32) -> Result<(), AllocError>
    requires left { (1 ≤ left) × (left ≤ store.old.vars) }
    ensures { OnOk result (store.new ≡ with_variable store.old (or_clauses (yes_lit (store.old.vars + 1)) (yes_lit left) (yes_lit store.old.vars))) }
{
    let x = lit(left);
    let y = lit(store.vars());
    let own = lit(add_vars(store, 1)?);
    store.add(&[own, x.negated()])?;
    store.add(&[own, y.negated()])?;
    store.add(&[own.negated(), x, y])?;
    Ok(())
}

// An atom that asks for a file.
fn code_presence(
    alloc: Global,
    store: &mut Store,
    events: &Events,
    cells: &[CodedCell],
    path: &Path,
) -> Result<(), AllocError>
    requires { AreCoded events.now store.old.vars cells.now }
    ensures { OnOk result (store.new ≡ with_node store.old (path_node events.now cells.now Presence (slot_number events.now path.now))) }
{
    let asked = Asked::Presence;
    let slot = events.slot_of(path);
    code_path(alloc, store, events, cells, &asked, slot)?;
    Ok(())
}

// An atom that asks for one file at two paths.
fn code_same(
    alloc: Global,
    store: &mut Store,
    events: &Events,
    cells: &[CodedCell],
    left: &Path,
    right: &Path,
) -> Result<(), AllocError>
    requires { AreCoded events.now store.old.vars cells.now }
    ensures { OnOk result (store.new ≡ with_node store.old (same_node events.now cells.now (slot_number events.now left.now) (slot_number events.now right.now))) }
{
    let left = events.slot_of(left);
    let right = events.slot_of(right);
    code_same_node(alloc, store, events, cells, left, right)?;
    Ok(())
}

// An atom that asks for a size.
fn code_size(
    alloc: Global,
    store: &mut Store,
    events: &Events,
    cells: &[CodedCell],
    path: &Path,
    size: u32,
) -> Result<(), AllocError>
    requires { AreCoded events.now store.old.vars cells.now }
    ensures { OnOk result (store.new ≡ with_node store.old (path_node events.now cells.now (ItsSize size) (slot_number events.now path.now))) }
{
    let asked = Asked::ItsSize { size };
    let slot = events.slot_of(path);
    code_path(alloc, store, events, cells, &asked, slot)?;
    Ok(())
}

// An atom that asks for a content.
fn code_content(
    alloc: Global,
    store: &mut Store,
    events: &Events,
    cells: &[CodedCell],
    path: &Path,
    text: &Text,
) -> Result<(), AllocError>
    requires { AreCoded events.now store.old.vars cells.now }
    ensures { OnOk result (store.new ≡ with_node store.old (path_node events.now cells.now (Content text.now) (slot_number events.now path.now))) }
{
    let asked = Asked::Content {
        text: copy_text(alloc, text.as_slice())?,
    };
    let slot = events.slot_of(path);
    code_path(alloc, store, events, cells, &asked, slot)?;
    Ok(())
}

// An atom that asks for a text at a place.
fn code_bytes(
    alloc: Global,
    store: &mut Store,
    events: &Events,
    cells: &[CodedCell],
    path: &Path,
    start: u32,
    text: &Text,
) -> Result<(), AllocError>
    requires { AreCoded events.now store.old.vars cells.now }
    ensures { OnOk result (store.new ≡ with_node store.old (path_node events.now cells.now (TextAt start text.now) (slot_number events.now path.now))) }
{
    let asked = Asked::TextAt {
        start,
        text: copy_text(alloc, text.as_slice())?,
    };
    let slot = events.slot_of(path);
    code_path(alloc, store, events, cells, &asked, slot)?;
    Ok(())
}

// An atom that asks for a value of a key.
fn code_attr(
    alloc: Global,
    store: &mut Store,
    events: &Events,
    cells: &[CodedCell],
    path: &Path,
    key: &Text,
    value: u32,
) -> Result<(), AllocError>
    requires { AreCoded events.now store.old.vars cells.now }
    ensures { OnOk result (store.new ≡ with_node store.old (path_node events.now cells.now (Attribute (text_number events.now.keys key.now) value) (slot_number events.now path.now))) }
{
    let asked = Asked::Attribute {
        key: events.key_of(key.as_slice()),
        value,
    };
    let slot = events.slot_of(path);
    code_path(alloc, store, events, cells, &asked, slot)?;
    Ok(())
}

// An atom that asks for a mark of a word.
fn code_mark(
    alloc: Global,
    store: &mut Store,
    events: &Events,
    word: &Text,
) -> Result<(), AllocError>
    requires { order_vars (length events.now.events) ≤ store.old.vars }
    ensures { OnOk result (store.new ≡ with_node store.old (seen_node (marks events.now (text_number events.now.words word.now)))) }
{
    let word = events.word_of(word.as_slice());
    code_seen(alloc, store, events, word)?;
    Ok(())
}
