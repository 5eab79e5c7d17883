//! Families of clauses, each of a size.

ghost use Rattle.std.specs.Prelude.{◌≡◌, ◌≢◌, ◌≤◌, ◌<◌, ◌+◌, ◌-◌, ◌*◌, ◌/◌, IfOk, OnOk};
ghost use Rattle.clause_store.specs.Clauses.{InVars};
ghost use Rattle.order_coding.specs.Growth.{joined};
ghost use Rattle.bench_clauses.specs.Families.{sits, some_hole, apart_from, all_apart, pigeon_formula, stands_before, no_cycle, no_cycle_with, no_cycle_below, around, is_ahead, circle_formula, next_number, drawn, drawn_lit, behind_lit, drawn_clause, drawn_formula};

use clause_store::{Lit, Store};
use std::alloc::{AllocError, Global};

/// The greatest size of a family.
pub const MOST_SIZE: u32 = 1000;

fn lit(var: u32, positive: bool) -> Lit
    ensures { result ≡ record { var = var; positive = positive } }
{
    Lit { var, positive }
}

// The next number of a linear congruential generator.
fn next_number(state: u64) -> u64
    ensures { result ≡ next_number state }
{
    state
        .wrapping_mul(6364136223846793005)
        .wrapping_add(1442695040888963407)
}

// A number from 1 to `most` that this one draws.
fn drawn(state: u64, most: u32) -> u32
    requires some { (1 ≤ most) × (most ≤ 1000) }
    ensures number { result ≡ drawn state most }
    ensures within { (1 ≤ result) × (result ≤ most) }
{
    ((state >> 33) as u32) % most + 1
}

// The literal of one of so many variables that the next two numbers draw.
fn drawn_lit(size: u32, state: u64) -> Lit
    requires some { (1 ≤ size) × (size ≤ 1000) }
    ensures literal { result ≡ drawn_lit size state }
    ensures named { InVars size result }
{
    let first = next_number(state);
    let second = next_number(first);
    lit(drawn(first, size), drawn(second, 2) == 1)
}

// The number that is drawn last for a literal.
fn behind_lit(state: u64) -> u64
    ensures { result ≡ behind_lit state }
{
    next_number(next_number(state))
}

// Adds the clause that is drawn behind this number, and answers the last number that was drawn.
fn draw_clause(store: &mut Store, size: u32, state: u64) -> Result<u64, AllocError>
    requires some { (1 ≤ size) × (size ≤ 1000) }
    requires vars { store.old.vars ≡ size }
    ensures clause { OnOk result (store.new ≡ joined store.old (drawn_clause size state)) }
    ensures last { IfOk result (λ last. last ≡ behind_lit (behind_lit (behind_lit state))) }
{
    let second = behind_lit(state);
    let third = behind_lit(second);
    let lits = [
        drawn_lit(size, state),
        drawn_lit(size, second),
        drawn_lit(size, third),
    ];
    store.add(lits.as_slice())?;
    Ok(behind_lit(third))
}

/// Clauses of three literals that are drawn, 4.26 for each variable, where as many of such questions can be answered as
/// can't.
pub fn random(alloc: Global, size: u32) -> Result<Store, AllocError>
    requires some { (1 ≤ size) × (size ≤ 1000) }
    ensures { IfOk result (λ store. store ≡ drawn_formula size) }
{
    let mut store = Store::new(alloc, size);
    let mut state = size as u64;
    for _number in 0..size * 426 / 100 {
        state = draw_clause(&mut store, size, state)?;
    }
    Ok(store)
}

// That the pigeon sits in the hole, or doesn't, both counted from 0.
fn sits(holes: u32, pigeon: u32, hole: u32, positive: bool) -> Lit
    requires few { holes ≤ 1000 }
    requires pigeon { pigeon ≤ holes }
    requires hole { hole < holes }
    ensures literal { result ≡ sits holes pigeon hole positive }
    ensures named { InVars (holes * (holes + 1)) result }
{
    lit(pigeon * holes + hole + 1, positive)
}

// The pigeon sits in one of the holes.
fn seat(alloc: Global, store: &mut Store, holes: u32, pigeon: u32) -> Result<(), AllocError>
    requires few { holes ≤ 1000 }
    requires pigeon { pigeon ≤ holes }
    requires vars { store.old.vars ≡ holes * (holes + 1) }
    ensures { OnOk result (store.new ≡ joined store.old (some_hole holes pigeon)) }
{
    let mut lits = Vec::new(alloc);
    for hole in 0..holes {
        lits.push(sits(holes, pigeon, hole, true))?;
    }
    store.add(lits.as_slice())?;
    Ok(())
}

// The pigeon is with none before it in the hole.
fn part(store: &mut Store, holes: u32, hole: u32, second: u32) -> Result<(), AllocError>
    requires few { holes ≤ 1000 }
    requires hole { hole < holes }
    requires second { second ≤ holes }
    requires vars { store.old.vars ≡ holes * (holes + 1) }
    ensures { OnOk result (store.new ≡ joined store.old (apart_from holes hole second)) }
{
    for first in 0..second {
        let there = sits(holes, first, hole, false);
        store.add(&[there, sits(holes, second, hole, false)])?;
    }
    Ok(())
}

// No two pigeons are in the hole.
fn part_all(store: &mut Store, holes: u32, hole: u32) -> Result<(), AllocError>
    requires few { holes ≤ 1000 }
    requires hole { hole < holes }
    requires vars { store.old.vars ≡ holes * (holes + 1) }
    ensures { OnOk result (store.new ≡ joined store.old (all_apart holes hole)) }
{
    for second in 0..holes + 1 {
        part(store, holes, hole, second)?;
    }
    Ok(())
}

/// One pigeon more than there are holes: each sits in a hole, and no two in one.
pub fn pigeons(alloc: Global, size: u32) -> Result<Store, AllocError>
    requires few { size ≤ 1000 }
    ensures { IfOk result (λ store. store ≡ pigeon_formula size) }
{
    let mut store = Store::new(alloc, size * (size + 1));
    for pigeon in 0..size + 1 {
        seat(alloc, &mut store, size, pigeon)?;
    }
    for hole in 0..size {
        part_all(&mut store, size, hole)?;
    }
    Ok(store)
}

// That event `a` stands before event `b`, both counted from 0. Each two have one variable.
fn before(size: u32, a: u32, b: u32) -> Lit
    requires few { size ≤ 1000 }
    requires first { a < size }
    requires second { b < size }
    requires apart { a ≢ b }
    ensures literal { result ≡ stands_before a b }
    ensures named { InVars (size * (size - 1) / 2) result }
{
    let high = a.max(b);
    lit(high * (high - 1) / 2 + a.min(b) + 1, a < b)
}

// The three events are in no cycle, in neither direction.
fn break_cycle(store: &mut Store, size: u32, c: u32, b: u32, a: u32) -> Result<(), AllocError>
    requires few { size ≤ 1000 }
    requires ascending { (a < b) × (b < c) × (c < size) }
    requires vars { store.old.vars ≡ size * (size - 1) / 2 }
    ensures { OnOk result (store.new ≡ joined store.old (no_cycle c b a)) }
{
    let up = [before(size, b, a), before(size, c, b), before(size, a, c)];
    let down = [before(size, a, b), before(size, b, c), before(size, c, a)];
    store.add(up.as_slice())?;
    store.add(down.as_slice())?;
    Ok(())
}

fn break_cycles_of_two(store: &mut Store, size: u32, c: u32, b: u32) -> Result<(), AllocError>
    requires few { size ≤ 1000 }
    requires ascending { (b < c) × (c < size) }
    requires vars { store.old.vars ≡ size * (size - 1) / 2 }
    ensures { OnOk result (store.new ≡ joined store.old (no_cycle_with c b)) }
{
    for a in 0..b {
        break_cycle(store, size, c, b, a)?;
    }
    Ok(())
}

fn break_cycles_below(store: &mut Store, size: u32, c: u32) -> Result<(), AllocError>
    requires few { size ≤ 1000 }
    requires there { c < size }
    requires vars { store.old.vars ≡ size * (size - 1) / 2 }
    ensures { OnOk result (store.new ≡ joined store.old (no_cycle_below c)) }
{
    for b in 0..c {
        break_cycles_of_two(store, size, c, b)?;
    }
    Ok(())
}

// The place in a circle of so many.
fn around(size: u32, place: u32) -> u32
    requires few { size ≤ 1000 }
    requires once { place < size + size }
    ensures { result ≡ around size place }
{
    if place < size { place } else { place - size }
}

// The event stands before the next one in the circle, or before the next but one.
fn put_ahead(store: &mut Store, size: u32, event: u32) -> Result<(), AllocError>
    requires few { (3 ≤ size) × (size ≤ 1000) }
    requires there { event < size }
    requires vars { store.old.vars ≡ size * (size - 1) / 2 }
    ensures { OnOk result (store.new ≡ joined store.old (is_ahead size event)) }
{
    let next = around(size, event + 1);
    let second = around(size, event + 2);
    let lits = [before(size, event, next), before(size, event, second)];
    store.add(lits.as_slice())?;
    Ok(())
}

/// Events in an order, by the clauses against cycles of three, where each stands before the next one or the next but one in
/// a circle. So none is the last. There are three or more.
pub fn order(alloc: Global, size: u32) -> Result<Store, AllocError>
    requires few { (3 ≤ size) × (size ≤ 1000) }
    ensures { IfOk result (λ store. store ≡ circle_formula size) }
{
    let mut store = Store::new(alloc, size * (size - 1) / 2);
    for c in 0..size {
        break_cycles_below(&mut store, size, c)?;
    }
    for event in 0..size {
        put_ahead(&mut store, size, event)?;
    }
    Ok(store)
}
