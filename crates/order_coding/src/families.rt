ghost use Rattle.std.specs.Prelude.{◌≡◌, ℕ, ◌+◌, ◌-◌, ◌<◌, ◌≤◌, ◌==◌, [], length, OnOk, OnErr};
ghost use Rattle.fer_events.specs.Orders.{AreForward, IsCrash};
ghost use Rattle.fer_events.specs.Pairs.{has_pair};
ghost use Rattle.fer_events.specs.declared.event.Crash.{Crash};
ghost use Rattle.order_coding.specs.Variables.{IsNumber, order_vars, in_lit};
ghost use Rattle.order_coding.specs.Families.{no_cycle, no_cycle_with, no_cycle_from, no_cycles, in_before, in_before_each, cut_is_prefix, in_together, transactions_whole, kept_pairs, txn_of, order_formula};
ghost use Rattle.order_coding.specs.Growth.{joined};
ghost use Rattle.order_coding.specs.Writing.{if_kept, if_kept_each};
ghost use Rattle.order_coding.specs.Decoded.{HasValues};
ghost use Rattle.order_coding.specs.Growth.{IsBeginning};

use crate::variables::{before_lit, in_var, order_vars};
use clause_store::{Lit, Store};
use fer_events::{Event, Events, Pairs};
use std::alloc::AllocError;

/// Writes the clauses that are true of exactly the values of crashes into an empty store, which then has the variables
/// of these values: those of kept pairs, against cycles of three, on the cut and on transactions. Where memory is
/// refused, the store holds the first of these clauses.
pub fn code_order(store: &mut Store, events: &Events, pairs: &Pairs) -> Result<(), AllocError>
    requires empty { store.old ≡ record { vars = 0; clauses = [] } }
    requires size { pairs.now.n ≡ length events.now.events }
    requires forward { AreForward pairs.now.n pairs.now.pairs }
    ensures ok { OnOk result (store.new ≡ order_formula events.now.events pairs.now.pairs) }
    ensures err { OnErr result (IsBeginning store.new (order_formula events.now.events pairs.now.pairs)) }

    // Every crash has values that describe it and make all clauses of the store true.
    ensures complete { OnOk result ((crash : Crash) → IsCrash events.now.events pairs.now.pairs crash
        → HasValues (length events.now.events) crash store.new) }
{
    events.keeps_rules();
    let n = pairs.n();
    let events = events.events();
    store.raise_vars(order_vars(n));
    keep_pairs(store, pairs)?;
    forbid_cycles(store, n)?;
    make_cut_prefix(store, n)?;
    keep_transactions_whole(store, events)?;
    Ok(())
}

// Each kept pair stands in its order.
fn keep_pairs(store: &mut Store, pairs: &Pairs) -> Result<(), AllocError>
    requires vars { store.old.vars ≡ order_vars pairs.now.n }
    requires forward { AreForward pairs.now.n pairs.now.pairs }
    ensures ok { OnOk result (store.new ≡ joined store.old (kept_pairs pairs.now.n pairs.now.pairs)) }
    ensures err { OnErr result (IsBeginning store.new (joined store.old (kept_pairs pairs.now.n pairs.now.pairs))) }
{
    for a in 1..pairs.n() + 1 {
        keep_pairs_from(store, pairs, a)?;
    }
    Ok(())
}

fn keep_pairs_from(store: &mut Store, pairs: &Pairs, a: u32) -> Result<(), AllocError>
    requires vars { store.old.vars ≡ order_vars pairs.now.n }
    requires first { IsNumber pairs.now.n a }
    requires forward { AreForward pairs.now.n pairs.now.pairs }
    ensures ok { OnOk result (store.new ≡ joined store.old (if_kept_each pairs.now.n pairs.now.pairs a)) }
    ensures err { OnErr result (IsBeginning store.new (joined store.old (if_kept_each pairs.now.n pairs.now.pairs a))) }
{
    for b in 1..pairs.n() + 1 {
        keep_pair(store, pairs, a, b)?;
    }
    Ok(())
}

fn keep_pair(store: &mut Store, pairs: &Pairs, a: u32, b: u32) -> Result<(), AllocError>
    requires vars { store.old.vars ≡ order_vars pairs.now.n }
    requires first { IsNumber pairs.now.n a }
    requires second { IsNumber pairs.now.n b }
    requires forward { AreForward pairs.now.n pairs.now.pairs }
    ensures ok { OnOk result (store.new ≡ joined store.old (if_kept pairs.now.n pairs.now.pairs a b)) }
    ensures err { OnErr result (IsBeginning store.new (joined store.old (if_kept pairs.now.n pairs.now.pairs a b))) }
{
    let n = pairs.n();
    if pairs.has(a, b) {
        store.add(&[before_lit(n, a, b)])?;
    }
    Ok(())
}

// No three events are in a cycle.
fn forbid_cycles(store: &mut Store, n: u32) -> Result<(), AllocError>
    requires few { n ≤ 128 }
    requires vars { store.old.vars ≡ order_vars n }
    ensures ok { OnOk result (store.new ≡ joined store.old (no_cycles n)) }
    ensures err { OnErr result (IsBeginning store.new (joined store.old (no_cycles n))) }
{
    for a in 1..n + 1 {
        forbid_cycles_of(store, n, a)?;
    }
    Ok(())
}

fn forbid_cycles_of(store: &mut Store, n: u32, a: u32) -> Result<(), AllocError>
    requires few { n ≤ 128 }
    requires vars { store.old.vars ≡ order_vars n }
    requires first { IsNumber n a }
    ensures ok { OnOk result (store.new ≡ joined store.old (no_cycle_from n a)) }
    ensures err { OnErr result (IsBeginning store.new (joined store.old (no_cycle_from n a))) }
{
    for b in a + 1..n + 1 {
        forbid_cycles_of_pair(store, n, a, b)?;
    }
    Ok(())
}

fn forbid_cycles_of_pair(store: &mut Store, n: u32, a: u32, b: u32) -> Result<(), AllocError>
    requires few { n ≤ 128 }
    requires vars { store.old.vars ≡ order_vars n }
    requires ascending { (1 ≤ a) × (a < b) × (b ≤ n) }
    ensures ok { OnOk result (store.new ≡ joined store.old (no_cycle_with n a b)) }
    ensures err { OnErr result (IsBeginning store.new (joined store.old (no_cycle_with n a b))) }
{
    for c in b + 1..n + 1 {
        forbid_cycle(store, n, a, b, c)?;
    }
    Ok(())
}

// The events a < b < c are in no cycle, in neither direction.
fn forbid_cycle(store: &mut Store, n: u32, a: u32, b: u32, c: u32) -> Result<(), AllocError>
    requires few { n ≤ 128 }
    requires vars { store.old.vars ≡ order_vars n }
    requires ascending { (1 ≤ a) × (a < b) × (b < c) × (c ≤ n) }
    ensures ok { OnOk result (store.new ≡ joined store.old (no_cycle n a b c)) }
    ensures err { OnErr result (IsBeginning store.new (joined store.old (no_cycle n a b c))) }
{
    let ab = before_lit(n, a, b);
    let bc = before_lit(n, b, c);
    let ac = before_lit(n, a, c);
    store.add(&[ab.negated(), bc.negated(), ac])?;
    store.add(&[ab, bc, ac.negated()])?;
    Ok(())
}

// The events that are in are the first ones of the order.
fn make_cut_prefix(store: &mut Store, n: u32) -> Result<(), AllocError>
    requires few { n ≤ 128 }
    requires vars { store.old.vars ≡ order_vars n }
    ensures ok { OnOk result (store.new ≡ joined store.old (cut_is_prefix n)) }
    ensures err { OnErr result (IsBeginning store.new (joined store.old (cut_is_prefix n))) }
{
    for a in 1..n + 1 {
        pull_in_before_all(store, n, a)?;
    }
    Ok(())
}

fn pull_in_before_all(store: &mut Store, n: u32, a: u32) -> Result<(), AllocError>
    requires few { n ≤ 128 }
    requires vars { store.old.vars ≡ order_vars n }
    requires first { IsNumber n a }
    ensures ok { OnOk result (store.new ≡ joined store.old (in_before_each n a)) }
    ensures err { OnErr result (IsBeginning store.new (joined store.old (in_before_each n a))) }
{
    for b in 1..n + 1 {
        pull_in_before(store, n, a, b)?;
    }
    Ok(())
}

// Where b is in and a stands before it, a is in.
fn pull_in_before(store: &mut Store, n: u32, a: u32, b: u32) -> Result<(), AllocError>
    requires few { n ≤ 128 }
    requires vars { store.old.vars ≡ order_vars n }
    requires first { IsNumber n a }
    requires second { IsNumber n b }
    ensures ok { OnOk result (store.new ≡ joined store.old (in_before n a b)) }
    ensures err { OnErr result (IsBeginning store.new (joined store.old (in_before n a b))) }
{
    if a != b {
        store.add(&[
            in_lit(b).negated(),
            before_lit(n, a, b).negated(),
            in_lit(a),
        ])?;
    }
    Ok(())
}

// No transaction is split by the cut.
fn keep_transactions_whole(store: &mut Store, events: &[Event]) -> Result<(), AllocError>
    requires few { length events.now ≤ 128 }
    requires vars { store.old.vars ≡ order_vars (length events.now) }
    ensures ok { OnOk result (store.new ≡ joined store.old (transactions_whole events.now)) }
    ensures err { OnErr result (IsBeginning store.new (joined store.old (transactions_whole events.now))) }
{
    for e in 1..events.len() as u32 {
        tie_neighbours(store, events, e)?;
    }
    Ok(())
}

// Where events e and e + 1 are of one transaction, both are in or neither.
fn tie_neighbours(store: &mut Store, events: &[Event], e: u32) -> Result<(), AllocError>
    requires few { length events.now ≤ 128 }
    requires vars { store.old.vars ≡ order_vars (length events.now) }
    requires neighbours { IsNumber (length events.now - 1) e }
    ensures ok { OnOk result (store.new ≡ joined store.old (in_together events.now e)) }
    ensures err { OnErr result (IsBeginning store.new (joined store.old (in_together events.now e))) }
{
    if of_one_transaction(events, e) {
        let this = in_lit(e);
        let next = in_lit(e + 1);
        store.add(&[this.negated(), next])?;
        store.add(&[this, next.negated()])?;
    }
    Ok(())
}

fn of_one_transaction(events: &[Event], e: u32) -> bool
    requires few { length events.now ≤ 128 }
    requires neighbours { IsNumber (length events.now - 1) e }
    ensures { result ≡ (txn_of events.now e == txn_of events.now (e + 1)) }
{
    events[e as usize - 1].txn == events[e as usize].txn
}

fn in_lit(e: u32) -> Lit
    ensures { result ≡ in_lit e }
{
    Lit {
        var: in_var(e),
        positive: true,
    }
}
