ghost use Rattle.std.specs.Prelude.{◌≡◌, ◌==◌, ℕ, ◌+◌, ◌≤◌, ◌<◌, length, position, IsPermutation, MatchBool, MatchOption};
ghost use Rattle.std.specs.List.Sorted.{IsNonDecreasingBy};
ghost use Rattle.fer_events.specs.Orders.{numbers};
ghost use Rattle.order_coding.specs.Variables.{IsNumber};
ghost use Rattle.witness_replay.specs.Judging.{IsOrder};
ghost use Rattle.witness_replay.specs.Places.{ArePlaces, IsMisplaced, IsFirstMisplaced, IsParted, PartsNext};

use fer_events::{Crash, Event, MOST_EVENTS, Pairs, pairs_are_found};

/// Whether the order has the numbers of the `n` events, each once, and the cut isn't above `n`.
pub fn is_order(n: u32, crash: &Crash) -> bool
    ensures { MatchBool result (IsOrder n crash.now) (IsOrder n crash.now → ⊥) }
{
    let order = crash.order.as_slice();
    if order.len() != n as usize {
        return false;
    }
    if crash.cut > n {
        return false;
    }
    for before in 0..n {
        if !order.contains(&(before + 1)) {
            return false;
        }
    }
    true
}

/// The place of a number in the order, if it is there.
fn place_of(order: &[u32], number: u32) -> Option<usize>
    ensures { result ≡ position (λ other. other == number) order.now }
{
    order.iter().position(|other| *other == number)
}

/// The place of each of the `n` events in the order, that of event 1 first.
pub fn places_of(n: u32, order: &[u32]) -> [usize; MOST_EVENTS]
    requires ordered { IsPermutation (numbers n) order.now }
    requires few { n ≤ 128 }
    ensures { ArePlaces n order.now result }
{
    let mut places = [0; MOST_EVENTS];
    for before in 0..n {
        places[before as usize] = place_of(order, before + 1).unwrap_or(0);
    }
    places
}

/// Whether a has to stand before b, and doesn't.
fn is_misplaced(pairs: &Pairs, places: &[usize; MOST_EVENTS], a: u32, b: u32) -> bool
    requires first { IsNumber pairs.now.n a }
    requires second { IsNumber pairs.now.n b }
    ensures { MatchBool result (IsMisplaced pairs.now.pairs places.now a b) (IsMisplaced pairs.now.pairs places.now a b → ⊥) }
{
    pairs_are_found();
    let _few = pairs.n();
    if !pairs.has(a, b) {
        return false;
    }
    if places[a as usize - 1] < places[b as usize - 1] {
        return false;
    }
    true
}

/// The least b before which a has to stand, and doesn't.
fn first_misplaced_behind(pairs: &Pairs, places: &[usize; MOST_EVENTS], a: u32) -> Option<u32>
    requires { IsNumber pairs.now.n a }
    ensures { MatchOption result
        ((b : ℕ) → IsMisplaced pairs.now.pairs places.now a b → ⊥)
        (λ b. IsMisplaced pairs.now.pairs places.now a b × ((d : ℕ) → IsMisplaced pairs.now.pairs places.now a d → b ≤ d)) }
{
    let n = pairs.n();
    for before in 0..n {
        if is_misplaced(pairs, places, a, before + 1) {
            return Some(before + 1);
        }
    }
    None
}

/// The least pair (a, b), by a, then b, such that a has to stand before b, and doesn't.
pub fn first_misplaced(pairs: &Pairs, places: &[usize; MOST_EVENTS]) -> Option<(u32, u32)>
    ensures { MatchOption result
        ((a b : ℕ) → IsMisplaced pairs.now.pairs places.now a b → ⊥)
        (λ p. IsFirstMisplaced pairs.now.pairs places.now p.0 p.1) }
{
    let n = pairs.n();
    for before in 0..n {
        if let Some(b) = first_misplaced_behind(pairs, places, before + 1) {
            return Some((before + 1, b));
        }
    }
    None
}

/// Whether the events at `next - 1` and `next` are of one transaction, and the cut is between them.
fn parts_next(events: &[Event], places: &[usize; MOST_EVENTS], cut: usize, next: usize) -> bool
    requires within { (1 ≤ next) × (next < length events.now) }
    requires few { length events.now ≤ 128 }
    ensures { MatchBool result (PartsNext events.now places.now cut next) (PartsNext events.now places.now cut next → ⊥) }
{
    if events[next - 1].txn != events[next].txn {
        return false;
    }
    (places[next - 1] < cut) != (places[next] < cut)
}

/// The least transaction with one event before the cut and another not.
pub fn first_parted(events: &[Event], places: &[usize; MOST_EVENTS], cut: usize) -> Option<u32>
    requires rises { IsNonDecreasingBy (λ e. e.txn) events.now }
    requires few { length events.now ≤ 128 }
    ensures { MatchOption result
        ((txn : ℕ) → IsParted events.now places.now cut txn → ⊥)
        (λ txn. IsParted events.now places.now cut txn × ((other : ℕ) → IsParted events.now places.now cut other → txn ≤ other)) }
{
    for next in 1..events.len() {
        if parts_next(events, places, cut, next) {
            return Some(events[next].txn);
        }
    }
    None
}
