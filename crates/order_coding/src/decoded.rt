ghost use Rattle.std.specs.Prelude.{◌≡◌, ◌≢◌, ℕ, ◌+◌, ◌-◌, ◌≤◌, ◌++◌, List, [], length, drop, map, filter, not, slice_index, if◌then◌else◌, IfOk, OnOk};
ghost use Rattle.std.specs.List.Sorted.{IsNonDecreasingBy, IsPermutation, IsStrictlyIncreasing};
ghost use Rattle.clause_store.specs.Clauses.{InVars};
ghost use Rattle.clause_store.specs.Truth.{is_true, MakesAllTrue};
ghost use Rattle.fer_events.specs.Orders.{numbers, AreForward, IsCrash};
ghost use Rattle.order_coding.specs.Variables.{IsNumber, order_vars};
ghost use Rattle.order_coding.specs.Families.{order_clauses};
ghost use Rattle.order_coding.specs.Decoded.{is_in, is_before, predecessors, IsDecoded};

use crate::variables::{before_lit, in_var};
use clause_store::Lit;
use fer_events::{Crash, Events};
use fer_list::Seq;
use std::alloc::{AllocError, Global};

/// The crash that the values say: first the events that are in, by how many events stand before each, then the others
/// ascending. The value of variable v stands at place v - 1. Where the values make the clauses of some kept pairs true,
/// it is a crash that keeps these pairs.
pub fn decode(alloc: Global, events: &Events, values: &[bool]) -> Result<Crash, AllocError>
    requires { order_vars (length events.now.events) ≤ length values.now }
    ensures decoded { IfOk result (λ crash. IsDecoded (length events.now.events) values.now crash) }
    ensures crash { IfOk result (λ crash. (kept : List (ℕ × ℕ)) → AreForward (length events.now.events) kept
        → MakesAllTrue values.now (order_clauses events.now.events kept) → IsCrash events.now.events kept crash) }
    ensures ascends { IfOk result (λ crash. IsStrictlyIncreasing (drop crash.cut crash.order)) }
{
    events.keeps_rules();
    let n = events.events().len() as u32;
    let mut order = events_in(alloc, n, values)?;
    let cut = order.len() as u32;
    append_events(&mut order, n, values, false)?;
    Ok(Crash {
        order: Seq::from_vec(order),
        cut,
    })
}

// The events that are in, by how many events stand before each.
fn events_in(alloc: Global, n: u32, values: &[bool]) -> Result<Vec<u32>, AllocError>
    requires few { n ≤ 128 }
    requires room { order_vars n ≤ length values.now }
    ensures chosen { IfOk result (λ order. IsPermutation (filter (is_in values.now) (numbers n)) order.items) }
    ensures by_place { IfOk result (λ order. IsNonDecreasingBy (predecessors n values.now) order.items) }
{
    let ranks = ranks(alloc, n, values)?;
    let mut order = Vec::new(alloc);
    append_events(&mut order, n, values, true)?;
    sort_by_rank(&mut order, ranks.as_slice());
    Ok(order)
}

fn sort_by_rank(order: &mut Vec<u32>, ranks: &[u32])
    ensures same { IsPermutation order.old.items order.new.items }
    ensures sorted { IsNonDecreasingBy (λ e. slice_index ranks.now (e - 1)) order.new.items }
{
    order.sort_unstable_by_key(|e| rank_of(ranks, *e));
}

// The entry of the event, and 0 of a number that is no event.
fn rank_of(ranks: &[u32], e: u32) -> u32
    ensures { result ≡ slice_index ranks.now (e - 1) }
{
    match ranks.get((e as usize).saturating_sub(1)) {
        Some(rank) => *rank,
        None => 0,
    }
}

// For each event how many stand before it.
fn ranks(alloc: Global, n: u32, values: &[bool]) -> Result<Vec<u32>, AllocError>
    requires few { n ≤ 128 }
    requires room { order_vars n ≤ length values.now }
    ensures { IfOk result (λ ranks. ranks.items ≡ map (predecessors n values.now) (numbers n)) }
{
    let mut ranks = Vec::new(alloc);
    for e in 1..n + 1 {
        ranks.push(predecessors(n, values, e))?;
    }
    Ok(ranks)
}

fn predecessors(n: u32, values: &[bool], e: u32) -> u32
    requires few { n ≤ 128 }
    requires event { IsNumber n e }
    requires room { order_vars n ≤ length values.now }
    ensures { result ≡ predecessors n values.now e }
{
    let mut count = 0;
    for a in 1..n + 1 {
        if is_before(n, values, a, e) {
            count += 1;
        }
    }
    count
}

fn is_before(n: u32, values: &[bool], a: u32, b: u32) -> bool
    requires few { n ≤ 128 }
    requires first { IsNumber n a }
    requires second { IsNumber n b }
    requires room { order_vars n ≤ length values.now }
    ensures { result ≡ is_before n values.now a b }
{
    if a == b {
        return false;
    }
    is_true(values, before_lit(n, a, b))
}

// Appends the events that are in, or those that aren't, ascending.
fn append_events(
    order: &mut Vec<u32>,
    n: u32,
    values: &[bool],
    inside: bool,
) -> Result<(), AllocError>
    requires few { n ≤ 128 }
    requires room { n ≤ length values.now }
    ensures { OnOk result (order.new.items
        ≡ order.old.items ++ filter (λ e. if inside then is_in values.now e else not (is_in values.now e)) (numbers n)) }
{
    for e in 1..n + 1 {
        if is_in(values, e) == inside {
            order.push(e)?;
        }
    }
    Ok(())
}

fn is_in(values: &[bool], e: u32) -> bool
    requires { IsNumber (length values.now) e }
    ensures { result ≡ is_in values.now e }
{
    is_true(
        values,
        Lit {
            var: in_var(e),
            positive: true,
        },
    )
}

fn is_true(values: &[bool], lit: Lit) -> bool
    requires { InVars (length values.now) lit }
    ensures { result ≡ is_true values.now lit }
{
    let value = values[lit.var as usize - 1];
    if lit.positive { value } else { !value }
}
