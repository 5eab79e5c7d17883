ghost use Rattle.std.specs.Prelude.{◌≡◌, ◌↔◌, ℕ, ◌≤◌, length, All, IfOk, OnOk, Contains, Some, slice_get};
ghost use Rattle.fer_events.specs.Pairs.{PairList};
ghost use Rattle.fer_events.specs.Orders.{AreForward};
ghost use Rattle.event_relations.specs.Kept.{IsKept, IsKeptBy};
ghost use Rattle.event_relations.specs.Lexicons.{IsLexicon};
ghost use Rattle.event_relations.specs.Showing.{GetsKept, NamesWithin, names_shown};

use crate::forward::put_forward;
use crate::lexicon::Lexicon;
use crate::relating::relate;
use crate::rounds::name_rows;
use fer_events::{Event, Events, Pairs};
use fer_list::Seq;
use model_reader::{Expr, Model};
use std::alloc::{AllocError, Global};

/// Puts among the pairs those that the expression relates and whose second event comes later.
fn put_kept(
    alloc: Global,
    events: &[Event],
    words: &Lexicon,
    names: &[Seq<u128>],
    kept: &Expr,
    pairs: &mut Pairs,
) -> Result<(), AllocError>
    requires few { length events.now ≤ 128 }
    requires words { IsLexicon events.now words.now }
    requires n { pairs.old.n ≡ length events.now }
    requires long { All (λ rows. length rows ≡ length events.now) names.now }
    requires within { NamesWithin events.now (names_shown names.now) }
    ensures n { pairs.new.n ≡ pairs.old.n }
    ensures pairs { OnOk result (GetsKept events.now (names_shown names.now) kept.now pairs.old pairs.new) }
{
    let rows = relate(alloc, events, words, names, kept)?;
    put_forward(pairs, rows.as_slice());
    Ok(())
}

/// The pairs of events that the model keeps in order: those that one of its `keep` lines relates, the first coming first
/// in program order. Events are numbered from 1.
pub fn kept(alloc: Global, model: &Model, events: &Events) -> Result<Pairs, AllocError>
    ensures n { IfOk result (λ pairs. pairs.n ≡ length events.now.events) }
    ensures exactly { IfOk result (λ pairs. (a b : ℕ) → Contains pairs.pairs (a, b) ↔ IsKept model.now events.now.events a b) }
    ensures forward { IfOk result (λ pairs. AreForward (length events.now.events) pairs.pairs) }
{
    events.keeps_rules();
    let list = events.events();
    let words = Lexicon::new(alloc, list)?;
    let names = name_rows(alloc, list, &words, model.lets.as_slice())?;
    let mut pairs = Pairs::new(list.len() as u32);
    for line in model.keeps.as_slice() {
        put_kept(alloc, list, &words, names.as_slice(), line, &mut pairs)?;
    }
    Ok(pairs)
}

/// The pairs of events that each `keep` line of the model keeps in order, in the order of the lines: those that the line
/// relates, the first coming first in program order. Events are numbered from 1.
pub fn kept_by(alloc: Global, model: &Model, events: &Events) -> Result<Seq<Pairs>, AllocError>
    ensures count { IfOk result (λ lines. length lines ≡ length model.now.keeps) }
    ensures n { IfOk result (λ lines. All (λ pairs. pairs.n ≡ length events.now.events) lines) }
    ensures exactly { IfOk result (λ lines. (i : ℕ) (pairs : PairList) → slice_get lines i ≡ Some pairs
        → (a b : ℕ) → Contains pairs.pairs (a, b) ↔ IsKeptBy model.now events.now.events i a b) }
    ensures forward { IfOk result (λ lines. All (λ pairs. AreForward (length events.now.events) pairs.pairs) lines) }
{
    events.keeps_rules();
    let list = events.events();
    let words = Lexicon::new(alloc, list)?;
    let names = name_rows(alloc, list, &words, model.lets.as_slice())?;
    let mut lines = Seq::new(alloc);
    for line in model.keeps.as_slice() {
        let mut pairs = Pairs::new(list.len() as u32);
        put_kept(alloc, list, &words, names.as_slice(), line, &mut pairs)?;
        lines.push(pairs)?;
    }
    Ok(lines)
}
