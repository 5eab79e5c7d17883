//! A heap of variables by their scores: the highest score first, and of one score the least variable first. A variable
//! knows its place, so that one whose score rose goes up from there. No variable leaves the heap: the search for the
//! highest without a value passes over all that is below one that was found.

ghost use Rattle.std.specs.Prelude.{◌≡◌, ◌≢◌, ℕ, ◌+◌, ◌-◌, ◌<◌, ◌≤◌, ◌⊎◌, length, slice_index, slice_set, Option, Some, IfSome, MatchBool};
ghost use Rattle.branch_rules.specs.Choosing.{IsOpen};
ghost use Rattle.branch_rules.specs.Heap.{rank, rank_of, exchanged, IsRanked, IsAlmost, IsIndexed, HaveSame, Under};

// Whether the first variable is above the second.
fn is_above(scores: &[u64], a: u32, b: u32) -> bool
    requires a_in { (1 ≤ a) × (a ≤ length scores.now) }
    requires b_in { (1 ≤ b) × (b ≤ length scores.now) }
    ensures { MatchBool result (rank scores.now b < rank scores.now a) (rank scores.now a ≤ rank scores.now b) }
{
    let score = scores[a as usize - 1];
    let other = scores[b as usize - 1];
    if score == other { a < b } else { other < score }
}

// Exchanges the variables at two places.
fn exchange(heap: &mut [u32], places: &mut [u32], a: usize, b: usize, count: usize)
    requires indexed { IsIndexed heap.old places.old count (length heap.old) }
    requires a_in { a < count }
    requires b_in { b < count }
    requires two { a ≢ b }
    ensures indexed { IsIndexed heap.new places.new count (length heap.old) }
    ensures exchanged { heap.new ≡ exchanged heap.old a b }
    ensures same { HaveSame places.old places.new }
{
    prove!(a < count);
    prove!(b < count);
    let first = heap[a];
    let second = heap[b];
    heap[a] = second;
    heap[b] = first;
    places[second as usize - 1] = a as u32 + 1;
    places[first as usize - 1] = b as u32 + 1;
}

/// Lets the variable at a place go up, until the first `size` places are a heap.
pub fn rise(
    scores: &[u64],
    heap: &mut [u32],
    places: &mut [u32],
    at: usize,
    size: usize,
    count: usize,
)
    requires over { length heap.old ≡ length scores.now }
    requires indexed { IsIndexed heap.old places.old count (length heap.old) }
    requires almost { IsAlmost scores.now heap.old size at }
    requires at_in { at < size }
    requires size_in { size ≤ count }
    ensures indexed { IsIndexed heap.new places.new count (length heap.old) }
    ensures ranked { IsRanked scores.now heap.new size }
    ensures same { HaveSame places.old places.new }
{
    let mut at = at;
    'up: while at > 0 {
        let up = (at - 1) / 2;
        if !is_above(scores, heap[at], heap[up]) {
            return;
        }
        exchange(heap, places, at, up, count);
        at = up;
    }
}

/// Puts a variable that has no place behind the others.
pub fn insert(heap: &mut [u32], places: &mut [u32], var: u32, count: usize)
    requires indexed { IsIndexed heap.old places.old count (length heap.old) }
    requires there { (1 ≤ var) × (var ≤ length heap.old) }
    requires nowhere { slice_index places.old (var - 1) ≡ 0 }
    ensures indexed { IsIndexed heap.new places.new (count + 1) (length heap.old) }
    ensures heap { heap.new ≡ slice_set heap.old count var }
    ensures places { places.new ≡ slice_set places.old (var - 1) (count + 1) }
{
    heap[count] = var;
    places[var as usize - 1] = count as u32 + 1;
}

// Whether the variable is one of those with a place for its value, and has none.
fn is_open(values: &[Option<bool>], var: u32) -> bool
    requires { 1 ≤ var }
    ensures { MatchBool result (IsOpen values.now var) (IsOpen values.now var → ⊥) }
{
    let place = var as usize - 1;
    if place < values.len() {
        values[place].is_none()
    } else {
        false
    }
}

// Whether one was found that is above this variable.
fn is_passed(scores: &[u64], found: Option<u32>, var: u32) -> bool
    requires there { (1 ≤ var) × (var ≤ length scores.now) }
    requires found { IfSome found (λ v. (1 ≤ v) × (v ≤ length scores.now)) }
    ensures { MatchBool result (rank scores.now var < rank_of scores.now found) (rank_of scores.now found ≤ rank scores.now var) }
{
    match found {
        None => false,
        Some(other) => is_above(scores, other, var),
    }
}

/// The highest of one that was found and of those without a value that stand at this place and below it.
pub fn highest(
    scores: &[u64],
    heap: &[u32],
    values: &[Option<bool>],
    at: usize,
    found: Option<u32>,
) -> Option<u32>
    requires named { (i : ℕ) → i < length heap.now → (1 ≤ slice_index heap.now i) × (slice_index heap.now i ≤ length scores.now) }
    requires ranked { IsRanked scores.now heap.now (length heap.now) }
    requires found { IfSome found (λ v. (1 ≤ v) × (v ≤ length scores.now)) }
    ensures chosen { (result ≡ found) ⊎ ((v : ℕ) × (result ≡ Some v) × (1 ≤ v) × (v ≤ length scores.now) × IsOpen values.now v) }
    ensures kept { rank_of scores.now found ≤ rank_of scores.now result }
    ensures best { (i : ℕ) → Under at i → i < length heap.now → IsOpen values.now (slice_index heap.now i) → rank scores.now (slice_index heap.now i) ≤ rank_of scores.now result }
{
    if at >= heap.len() {
        return found;
    }
    let var = heap[at];
    if is_passed(scores, found, var) {
        return found;
    }
    if is_open(values, var) {
        return Some(var);
    }
    let left = highest(scores, heap, values, 2 * at + 1, found);
    highest(scores, heap, values, 2 * at + 2, left)
}
