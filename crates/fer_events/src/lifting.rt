ghost use Rattle.std.specs.Prelude.{◌≡◌, ℕ, ◌≤◌, ◌||◌, length, All};
ghost use Rattle.fer_events.specs.Pairs.{has_pair};
ghost use Rattle.fer_events.specs.Lifting.{AreLifted, lifted_pairs};
ghost use Rattle.fer_events.specs.Rows.{row_upto};

use crate::pairs::Pairs;

/// Puts the pairs of a row, in the numbers of the whole list, among the others.
fn lift_row(small: &Pairs, first: u32, places: &[u32], large: &mut Pairs)
    requires there { (1 ≤ first) × (first ≤ small.now.n) }
    requires places { length places.now ≡ small.now.n }
    requires within { All (λ p. (1 ≤ p) × (p ≤ large.old.n)) places.now }
    ensures n { large.new.n ≡ large.old.n }
    ensures pairs { (x y : ℕ) → has_pair large.new.pairs x y ≡ has_pair (lifted_pairs places.now (row_upto small.now first small.now.n)) x y || has_pair large.old.pairs x y }
{
    for place in 0..small.n() {
        if small.has(first, place + 1) {
            large.set(places[first as usize - 1], places[place as usize]);
        }
    }
}

/// The pairs of events that stay where others are left out, in the numbers of the whole list of `n` events. `places` has, for
/// each event that stays, its number there. It takes no memory.
pub fn lift(small: &Pairs, places: &[u32], n: u32) -> Pairs
    requires places { length places.now ≡ small.now.n }
    requires within { All (λ p. (1 ≤ p) × (p ≤ n)) places.now }
    requires few { n ≤ 128 }
    ensures lifted { AreLifted places.now n small.now result }
{
    let mut large = Pairs::new(n);
    for place in 0..small.n() {
        lift_row(small, place + 1, places, &mut large);
    }
    large.n();
    large
}
