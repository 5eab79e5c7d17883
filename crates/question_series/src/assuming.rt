ghost use Rattle.std.specs.Prelude.{◌≡◌, ◌≤◌, [], ◌∷◌, ◌++◌, length, reverse, IfOk, OnOk, MatchBool};
ghost use Rattle.fer_events.specs.Orders.{numbers, AreForward};
ghost use Rattle.order_coding.specs.Variables.{IsNumber};
ghost use Rattle.question_series.specs.Assumed.{kept_lits, row, AreAmong};

use clause_store::{Lit, Lits};
use fer_events::Pairs;
use fer_list::Seq;
use order_coding::before_lit;
use std::alloc::{AllocError, Global};

/// How many pairs there are. It takes no memory.
pub fn count_pairs(pairs: &Pairs) -> u32
    ensures { result ≡ length pairs.now.pairs }
{
    let mut count = 0;
    for a in 1..pairs.n() + 1 {
        count += count_row(pairs, a);
    }
    count
}

// How many pairs begin with this number.
fn count_row(pairs: &Pairs, a: u32) -> u32
    requires first { IsNumber pairs.now.n a }
    ensures count { result ≡ length (row pairs.now.pairs a (numbers pairs.now.n)) }
    ensures few { result ≤ 128 }
{
    let mut count = 0;
    for b in 1..pairs.n() + 1 {
        if pairs.has(a, b) {
            count += 1;
        }
    }
    count
}

/// The literals that say of each pair that it stands in its order.
pub fn kept_lits(alloc: Global, pairs: &Pairs) -> Result<Lits, AllocError>
    requires forward { AreForward pairs.now.n pairs.now.pairs }
    ensures { IfOk result (λ lits. lits ≡ kept_lits pairs.now.n pairs.now.pairs) }
{
    let mut lits = Seq::new(alloc);
    for a in 1..pairs.n() + 1 {
        assume_row(&mut lits, pairs, a)?;
    }
    Ok(lits)
}

/// The literals in the opposite order.
pub fn turned(lits: Lits) -> Lits
    ensures { result ≡ reverse lits }
{
    let mut items = lits.into_vec();
    items.as_mut_slice().reverse();
    Seq::from_vec(items)
}

// Appends the literals of the pairs that begin with this number.
fn assume_row(lits: &mut Lits, pairs: &Pairs, a: u32) -> Result<(), AllocError>
    requires first { IsNumber pairs.now.n a }
    requires forward { AreForward pairs.now.n pairs.now.pairs }
    ensures { OnOk result (lits.new ≡ lits.old ++ kept_lits pairs.now.n (row pairs.now.pairs a (numbers pairs.now.n))) }
{
    for b in 1..pairs.n() + 1 {
        assume_pair(lits, pairs, a, b)?;
    }
    Ok(())
}

// Appends the literal of (a, b), if it is one of the pairs.
fn assume_pair(lits: &mut Lits, pairs: &Pairs, a: u32, b: u32) -> Result<(), AllocError>
    requires first { IsNumber pairs.now.n a }
    requires second { IsNumber pairs.now.n b }
    requires forward { AreForward pairs.now.n pairs.now.pairs }
    ensures { OnOk result (lits.new ≡ lits.old ++ kept_lits pairs.now.n (row pairs.now.pairs a (b ∷ []))) }
{
    let n = pairs.n();
    if pairs.has(a, b) {
        lits.push(before_lit(n, a, b))?;
    }
    Ok(())
}

/// Whether each literal of the part is one of the others.
pub fn are_among(part: &[Lit], lits: &[Lit]) -> bool
    ensures { MatchBool result (AreAmong part.now lits.now) (Unit {0}) }
{
    for lit in part {
        if !lits.contains(lit) {
            return false;
        }
    }
    true
}
