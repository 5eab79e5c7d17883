ghost use Rattle.std.specs.Prelude.{◌≡◌, ◌≤◌, List, Bool, [], length, drop, IfOk, OnOk};
ghost use Rattle.std.specs.List.Sorted.{IsStrictlyIncreasing};
ghost use Rattle.clause_store.specs.Truth.{MakesAllTrue};
ghost use Rattle.fer_events.specs.declared.event.Crash.{Crash};
ghost use Rattle.fer_events.specs.Orders.{AreForward};
ghost use Rattle.fer_events.specs.Witness.{IsWitness};
ghost use Rattle.order_coding.specs.Variables.{order_vars};
ghost use Rattle.order_coding.specs.Decoded.{IsDecoded, HasValues};
ghost use Rattle.predicate_coding.specs.Nodes.{node};
ghost use Rattle.predicate_coding.specs.CellChoices.{yes_lit};
ghost use Rattle.predicate_coding.specs.Coding.{wanted, coding};
ghost use Rattle.predicate_coding.specs.Growing.{AreCoded, with_node, with_question};

use crate::fitting::lit;
use crate::laws::{true_values_are_witnesses, witnesses_have_values};
use crate::nodes::code_node;
use clause_store::{Lit, Store};
use fer_events::{Events, Pairs};
use litmus_syntax::Pred;
use order_coding::code_order;
use std::alloc::{AllocError, Global};
use value_coding::{CodedCell, code_cells};

/// A question as clauses, and how many events they are about. `order_coding::decode` makes a crash of values.
#[derive(Debug, Drop)]
pub struct Coded {
    pub store: Store,
    pub events: u32,
}

/// The clauses that are true of exactly the values of crashes that keep the pairs and answer the question: crashes after
/// which the predicate is true where `want` is true, and false where it is false. They are those of crashes, of the last
/// writers of the cells, of the predicate's nodes, and last the question's own. Where the variables pass 2^32, memory for
/// them is wanting.
pub fn code(
    alloc: Global,
    events: &Events,
    pairs: &Pairs,
    pred: &Pred,
    want: bool,
) -> Result<Coded, AllocError>
    requires size { pairs.now.n ≡ length events.now.events }
    requires forward { AreForward pairs.now.n pairs.now.pairs }
    ensures clauses { IfOk result (λ coded. coded.store ≡ coding events.now pairs.now.pairs pred.now want) }
    ensures events { IfOk result (λ coded. coded.events ≡ length events.now.events) }

    // Values make the clauses true only if the crash that is decoded of them answers the question.
    ensures sound { IfOk result (λ coded. (values : List Bool) (crash : Crash) → MakesAllTrue values coded.store.clauses
        → IsDecoded (length events.now.events) values crash
        → IsWitness events.now pairs.now.pairs pred.now want crash × IsStrictlyIncreasing (drop crash.cut crash.order)) }

    // Every crash that answers the question has values that describe it and make the clauses true.
    ensures complete { IfOk result (λ coded. (crash : Crash) → IsWitness events.now pairs.now.pairs pred.now want crash
        → HasValues (length events.now.events) crash coded.store) }
{
    events.keeps_rules();
    true_values_are_witnesses();
    witnesses_have_values();
    order_coding::laws::decoded_crashes_are_described();
    let store = code_formula(alloc, events, pairs, pred, want)?;
    Ok(Coded {
        store,
        events: events.events().len() as u32,
    })
}

fn code_formula(
    alloc: Global,
    events: &Events,
    pairs: &Pairs,
    pred: &Pred,
    want: bool,
) -> Result<Store, AllocError>
    requires size { pairs.now.n ≡ length events.now.events }
    requires forward { AreForward pairs.now.n pairs.now.pairs }
    ensures { IfOk result (λ store. store ≡ coding events.now pairs.now.pairs pred.now want) }
{
    let mut store = Store::new(alloc, 0);
    fill(alloc, &mut store, events, pairs, pred, want)?;
    Ok(store)
}

// Writes all clauses into an empty store.
fn fill(
    alloc: Global,
    store: &mut Store,
    events: &Events,
    pairs: &Pairs,
    pred: &Pred,
    want: bool,
) -> Result<(), AllocError>
    requires empty { store.old ≡ record { vars = 0; clauses = [] } }
    requires size { pairs.now.n ≡ length events.now.events }
    requires forward { AreForward pairs.now.n pairs.now.pairs }
    ensures { OnOk result (store.new ≡ coding events.now pairs.now.pairs pred.now want) }
{
    events.keeps_rules();
    value_coding::laws::segments_are_not_divided();
    code_order(store, events, pairs)?;
    let cells = code_cells(alloc, store, events, pred)?;
    code_question(alloc, store, events, cells.as_slice(), pred, want)?;
    Ok(())
}

// Writes the nodes of the predicate, and what is asked of its root.
fn code_question(
    alloc: Global,
    store: &mut Store,
    events: &Events,
    cells: &[CodedCell],
    pred: &Pred,
    want: bool,
) -> Result<(), AllocError>
    requires coded { AreCoded events.now store.old.vars cells.now }
    requires order { order_vars (length events.now.events) ≤ store.old.vars }
    ensures { OnOk result (store.new ≡ with_question (with_node store.old (node events.now cells.now pred.now)) want) }
{
    code_node(alloc, store, events, cells, pred)?;
    let own = store.vars();
    store.add(&[wanted(own, want)])?;
    Ok(())
}

// The literal that is true where the question is answered as wanted.
fn wanted(own: u32, want: bool) -> Lit
    ensures { result ≡ wanted (yes_lit own) want }
{
    if want { lit(own) } else { lit(own).negated() }
}
