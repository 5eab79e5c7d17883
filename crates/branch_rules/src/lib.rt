//! Rules that say which variable a search decides next, behind the trait `Brancher`. A search tells its rule each variable
//! of a clause that it learned and the end of each conflict, and asks it for a literal; it trusts nothing that the rule
//! answers. `First` picks the least variable without a value, `Last` the greatest, and `Activity` the one with the highest
//! score, where scores rise by steps that grow, as in MiniSat's order by activity. Each is pinned to its definition. They
//! stand on the literals of `clause_store` alone.
#![tactic(auto)]

ghost use Rattle.std.specs.Prelude.{◌≡◌, ◌≢◌, ℕ, ◌^◌, ◌<◌, ◌≤◌, length, slice_get, false, Some, None, IfSome, IfNone, MatchBool};
ghost use Rattle.branch_rules.specs.Choosing.{IsOpen, AreSet, IsLeast, IsGreatest};

use clause_store::Lit;
use std::alloc::{AllocError, Global};

mod activity;
mod heap;

pub use activity::Activity;

/// A rule that says which literal a search decides next. Variables are numbered from 1.
pub trait Brancher: Drop {
    /// A search over variables from 1 to `vars` begins. It is told before anything is asked.
    fn start(&mut self, alloc: Global, vars: u32) -> Result<(), AllocError>;

    /// The variable stands in a clause that was learned. It takes no memory.
    fn note(&mut self, var: u32);

    /// A conflict is over. It takes no memory.
    fn settle(&mut self);

    /// The literal to decide, where `values` has the value of variable v at place v - 1. A search takes another one where
    /// this is `None`, or of a variable that isn't there or has a value. It takes no memory.
    fn pick(&mut self, values: &[Option<bool>]) -> Option<Lit>
        requires { length values.now < 2 ^ 32 };
}

// Whether all of these variables have a value. It has no early end, so that a compiler lets it go by many at a time.
fn are_set(values: &[Option<bool>]) -> bool
    ensures { MatchBool result ((i : ℕ) → slice_get values.now i ≢ Some None) (Unit {0}) }
{
    let mut set = true;
    for value in values {
        set = set & value.is_some();
    }
    set
}

// How many variables from the front have a value, where only whole blocks are looked at.
fn skip_set(values: &[Option<bool>]) -> usize
    ensures within { result ≤ length values.now }
    ensures passed { (w : ℕ) → IsOpen values.now w → result < w }
{
    let mut start = 0;
    'block: while values.len() - start >= 64 {
        if !are_set(&values[start..start + 64]) {
            return start;
        }
        start += 64;
    }
    start
}

// The least variable without a value, made false.
fn least(values: &[Option<bool>]) -> Option<Lit>
    requires { length values.now < 2 ^ 32 }
    ensures some { IfSome result (λ l. IsLeast values.now l.var × (l.positive ≡ false)) }
    ensures none { IfNone result (AreSet values.now) }
{
    let mut place = skip_set(values);
    while place < values.len() {
        if values[place].is_none() {
            return Some(Lit {
                var: place as u32 + 1,
                positive: false,
            });
        }
        place += 1;
    }
    None
}

// The greatest variable without a value, made false.
fn greatest(values: &[Option<bool>]) -> Option<Lit>
    requires { length values.now < 2 ^ 32 }
    ensures some { IfSome result (λ l. IsGreatest values.now l.var × (l.positive ≡ false)) }
    ensures none { IfNone result (AreSet values.now) }
{
    let mut var = values.len() as u32;
    while var > 0 {
        if values[var as usize - 1].is_none() {
            return Some(Lit {
                var,
                positive: false,
            });
        }
        var -= 1;
    }
    None
}

/// Picks the least variable without a value, made false.
#[derive(Drop)]
pub struct First {}

impl First {
    /// The rule. It keeps nothing.
    pub fn new() -> First {
        First {}
    }
}

impl Brancher for First {
    fn start(&mut self, _alloc: Global, _vars: u32) -> Result<(), AllocError> {
        Ok(())
    }

    fn note(&mut self, _var: u32) {}

    fn settle(&mut self) {}

    fn pick(&mut self, values: &[Option<bool>]) -> Option<Lit>
        requires { length values.now < 2 ^ 32 }
        ensures some { IfSome result (λ l. IsLeast values.now l.var × (l.positive ≡ false)) }
        ensures none { IfNone result (AreSet values.now) }
    {
        least(values)
    }
}

/// Picks the greatest variable without a value, made false.
#[derive(Drop)]
pub struct Last {}

impl Last {
    /// The rule. It keeps nothing.
    pub fn new() -> Last {
        Last {}
    }
}

impl Brancher for Last {
    fn start(&mut self, _alloc: Global, _vars: u32) -> Result<(), AllocError> {
        Ok(())
    }

    fn note(&mut self, _var: u32) {}

    fn settle(&mut self) {}

    fn pick(&mut self, values: &[Option<bool>]) -> Option<Lit>
        requires { length values.now < 2 ^ 32 }
        ensures some { IfSome result (λ l. IsGreatest values.now l.var × (l.positive ≡ false)) }
        ensures none { IfNone result (AreSet values.now) }
    {
        greatest(values)
    }
}

#[cfg(test)]
mod tests;
