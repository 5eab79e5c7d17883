ghost use Rattle.std.specs.Prelude.{◌≡◌, ◌≢◌, ◌+◌, ◌^◌, ◌<◌, ◌≤◌, [], ◌∷◌, length, All, AllPairs, IfOk, OnOk, OnErr};
ghost use Rattle.clause_store.specs.Clauses.{InVars};
ghost use Rattle.order_coding.specs.Variables.{IsNumber, order_vars, in_lit, before_lit};
ghost use Rattle.order_coding.specs.Growth.{IsBeginning, joined};
ghost use Rattle.value_coding.specs.LastClauses.{last_lit, writer_at, some_last, other_before, last_is, none_is, last_clauses};
ghost use Rattle.value_coding.specs.LastWriting.{AreWriters, each_coded, others, lasts, nones};

use crate::cell::CodedCell;
use clause_store::{Lit, Store};
use order_coding::{before_lit, in_var};
use std::alloc::{AllocError, Global};

/// Writes, for each of the cells, which of its writers is the last one that is in, of `n` events.
pub fn code_last_writers(
    alloc: Global,
    store: &mut Store,
    n: u32,
    cells: &[CodedCell],
) -> Result<(), AllocError>
    requires few { n ≤ 128 }
    requires order { order_vars n ≤ store.old.vars }
    requires writers { All (λ c. AreWriters n c.writers) cells.now }
    requires room { All (λ c. (1 ≤ c.first) × (c.first + length c.writers ≤ store.old.vars)) cells.now }
    ensures ok { OnOk result (store.new ≡ joined store.old (each_coded n cells.now)) }
    ensures err { OnErr result (IsBeginning store.new (joined store.old (each_coded n cells.now))) }
{
    let _vars = store.vars();
    for cell in cells {
        code_last(alloc, store, n, cell.first, cell.writers.as_slice())?;
    }
    Ok(())
}

// Which writer is the last one that is in.
fn code_last(
    alloc: Global,
    store: &mut Store,
    n: u32,
    first: u32,
    writers: &[u32],
) -> Result<(), AllocError>
    requires few { n ≤ 128 }
    requires order { order_vars n ≤ store.old.vars }
    requires writers { AreWriters n writers.now }
    requires some { 1 ≤ first }
    requires room { first + length writers.now ≤ store.old.vars }
    requires small { store.old.vars < 2 ^ 32 }
    ensures ok { OnOk result (store.new ≡ joined store.old (last_clauses n first writers.now)) }
    ensures err { OnErr result (IsBeginning store.new (joined store.old (last_clauses n first writers.now))) }
{
    let some = some_last(alloc, first, writers)?;
    store.add(some.as_slice())?;
    code_lasts(store, n, first, writers)?;
    code_nones(store, n, first, writers)?;
    Ok(())
}

// One of the writers is the last one, or none is in.
fn some_last(alloc: Global, first: u32, writers: &[u32]) -> Result<Vec<Lit>, AllocError>
    requires few { length writers.now ≤ 128 }
    requires room { first + length writers.now < 2 ^ 32 }
    ensures { IfOk result (λ some. some.items ≡ some_last first writers.now) }
{
    (0..writers.len() as u32 + 1)
        .map(|j| last_lit(first, j))
        .collect(alloc)
}

// Where a writer is the last one, it is in, and the others that are in stand before it.
fn code_lasts(store: &mut Store, n: u32, first: u32, writers: &[u32]) -> Result<(), AllocError>
    requires few { n ≤ 128 }
    requires order { order_vars n ≤ store.old.vars }
    requires writers { AreWriters n writers.now }
    requires some { 1 ≤ first }
    requires room { first + length writers.now ≤ store.old.vars }
    requires small { store.old.vars < 2 ^ 32 }
    ensures ok { OnOk result (store.new ≡ joined store.old (lasts n first writers.now)) }
    ensures err { OnErr result (IsBeginning store.new (joined store.old (lasts n first writers.now))) }
{
    for j in 1..writers.len() as u32 + 1 {
        code_last_is(store, n, first, writers, j)?;
    }
    Ok(())
}

fn code_last_is(
    store: &mut Store,
    n: u32,
    first: u32,
    writers: &[u32],
    j: u32,
) -> Result<(), AllocError>
    requires few { n ≤ 128 }
    requires order { order_vars n ≤ store.old.vars }
    requires writers { AreWriters n writers.now }
    requires some { 1 ≤ first }
    requires room { first + length writers.now ≤ store.old.vars }
    requires small { store.old.vars < 2 ^ 32 }
    requires there { IsNumber (length writers.now) j }
    ensures ok { OnOk result (store.new ≡ joined store.old (last_is n first writers.now j)) }
    ensures err { OnErr result (IsBeginning store.new (joined store.old (last_is n first writers.now j))) }
{
    let last = last_lit(first, j).negated();
    store.add(&[last, writer_in(writers, n, j)])?;
    code_others(store, n, first, writers, j)?;
    Ok(())
}

// Where a writer is the last one, each other that is in stands before it.
fn code_others(
    store: &mut Store,
    n: u32,
    first: u32,
    writers: &[u32],
    j: u32,
) -> Result<(), AllocError>
    requires few { n ≤ 128 }
    requires order { order_vars n ≤ store.old.vars }
    requires writers { AreWriters n writers.now }
    requires some { 1 ≤ first }
    requires room { first + length writers.now ≤ store.old.vars }
    requires small { store.old.vars < 2 ^ 32 }
    requires there { IsNumber (length writers.now) j }
    ensures ok { OnOk result (store.new ≡ joined store.old (others n first writers.now j)) }
    ensures err { OnErr result (IsBeginning store.new (joined store.old (others n first writers.now j))) }
{
    for k in 1..writers.len() as u32 + 1 {
        code_other(store, n, first, writers, j, k)?;
    }
    Ok(())
}

fn code_other(
    store: &mut Store,
    n: u32,
    first: u32,
    writers: &[u32],
    j: u32,
    k: u32,
) -> Result<(), AllocError>
    requires few { n ≤ 128 }
    requires order { order_vars n ≤ store.old.vars }
    requires writers { AreWriters n writers.now }
    requires some { 1 ≤ first }
    requires room { first + length writers.now ≤ store.old.vars }
    requires small { store.old.vars < 2 ^ 32 }
    requires there { IsNumber (length writers.now) j }
    requires other { IsNumber (length writers.now) k }
    ensures ok { OnOk result (store.new ≡ joined store.old (other_before n first writers.now j k)) }
    ensures err { OnErr result (IsBeginning store.new (joined store.old (other_before n first writers.now j k))) }
{
    if k != j {
        let last = last_lit(first, j).negated();
        let inside = writer_in(writers, n, k).negated();
        store.add(&[last, inside, stands_before(writers, n, k, j)])?;
    }
    Ok(())
}

// Where there is no last writer, none is in.
fn code_nones(store: &mut Store, n: u32, first: u32, writers: &[u32]) -> Result<(), AllocError>
    requires order { order_vars n ≤ store.old.vars }
    requires writers { AreWriters n writers.now }
    requires some { 1 ≤ first }
    requires room { first + length writers.now ≤ store.old.vars }
    requires small { store.old.vars < 2 ^ 32 }
    ensures ok { OnOk result (store.new ≡ joined store.old (nones first writers.now)) }
    ensures err { OnErr result (IsBeginning store.new (joined store.old (nones first writers.now))) }
{
    for k in 1..writers.len() as u32 + 1 {
        code_none(store, n, first, writers, k)?;
    }
    Ok(())
}

fn code_none(
    store: &mut Store,
    n: u32,
    first: u32,
    writers: &[u32],
    k: u32,
) -> Result<(), AllocError>
    requires order { order_vars n ≤ store.old.vars }
    requires writers { AreWriters n writers.now }
    requires some { 1 ≤ first }
    requires room { first + length writers.now ≤ store.old.vars }
    requires small { store.old.vars < 2 ^ 32 }
    requires there { IsNumber (length writers.now) k }
    ensures ok { OnOk result (store.new ≡ joined store.old (none_is first writers.now k ∷ [])) }
    ensures err { OnErr result (store.new ≡ store.old) }
{
    let none = last_lit(first, 0).negated();
    store.add(&[none, writer_in(writers, n, k).negated()])?;
    Ok(())
}

// The variable that says that the j-th writer is the last one.
fn last_lit(first: u32, j: u32) -> Lit
    requires { first + j < 2 ^ 32 }
    ensures { result ≡ last_lit first j }
{
    Lit {
        var: first + j,
        positive: true,
    }
}

// The literal that says that the j-th writer is in.
fn writer_in(writers: &[u32], n: u32, j: u32) -> Lit
    requires there { IsNumber (length writers.now) j }
    requires numbers { All (IsNumber n) writers.now }
    ensures literal { result ≡ in_lit (writer_at writers.now j) }
    ensures named { InVars (order_vars n) result }
{
    Lit {
        var: in_var(writers[j as usize - 1]),
        positive: true,
    }
}

// The literal that says that the k-th writer stands before the j-th.
fn stands_before(writers: &[u32], n: u32, k: u32, j: u32) -> Lit
    requires few { n ≤ 128 }
    requires first { IsNumber (length writers.now) k }
    requires second { IsNumber (length writers.now) j }
    requires differ { k ≢ j }
    requires numbers { All (IsNumber n) writers.now }
    requires apart { AllPairs (λ a b. a ≢ b) writers.now }
    ensures literal { result ≡ before_lit n (writer_at writers.now k) (writer_at writers.now j) }
    ensures named { InVars (order_vars n) result }
{
    before_lit(n, writers[k as usize - 1], writers[j as usize - 1])
}
