ghost use Rattle.std.specs.Prelude.{◌≡◌, ℕ, ◌<◌, ◌≤◌, ◌&&◌, ◌||◌, ◌==◌, []};
ghost use Rattle.fer_events.specs.Pairs.{has_pair, IsListed};

use crate::limits::MOST_EVENTS;
use std::marker::Model;

/// Pairs of events (a, b) such that a has to reach the disk before b. Events are numbered from 1 to `n`. It takes no
/// memory: a row of bits for each a.
#[derive(Debug, Drop)]
pub struct Pairs {
    n: u32,
    rows: [u128; MOST_EVENTS],
}

impl Model for Pairs {
    ghost use Rattle.std.specs.Prelude.{◌≤◌};
    ghost use Rattle.fer_events.specs.Pairs.{PairList};
    ghost use Rattle.fer_events.specs.Matrix.{pairs_of};

    ghost Value = { PairList };

    ghost view = { λ p. record { n = p.n; pairs = pairs_of p.n p.rows } };

    ghost invariant = { λ p. p.n ≤ 128 };
}

impl Pairs {
    /// No pairs of `n` events.
    pub fn new(n: u32) -> Pairs
        requires { n ≤ 128 }
        ensures { result ≡ record { n = n; pairs = [] } }
    {
        Pairs {
            n,
            rows: [0; MOST_EVENTS],
        }
    }

    /// The number of events. The pairs are listed by a, then b, each once.
    pub fn n(&self) -> u32
        ensures n { result ≡ self.now.n }
        ensures bound { self.now.n ≤ 128 }
        ensures listed { IsListed self.now }
    {
        self.n
    }

    /// Whether (a, b) is one of the pairs.
    pub fn has(&self, a: u32, b: u32) -> bool
        requires first { (1 ≤ a) × (a ≤ self.now.n) }
        requires second { (1 ≤ b) × (b ≤ self.now.n) }
        ensures { result ≡ has_pair self.now.pairs a b }
    {
        (self.rows[a as usize - 1] >> (b - 1)) & 1 == 1
    }

    /// Puts (a, b) among the pairs.
    pub fn set(&mut self, a: u32, b: u32)
        requires first { (1 ≤ a) × (a ≤ self.old.n) }
        requires second { (1 ≤ b) × (b ≤ self.old.n) }
        ensures n { self.new.n ≡ self.old.n }
        ensures pairs { (x y : ℕ) → has_pair self.new.pairs x y ≡ ((a == x) && (b == y)) || has_pair self.old.pairs x y }
    {
        let row = self.rows[a as usize - 1];
        self.rows[a as usize - 1] = row | (1 << (b - 1));
    }
}
