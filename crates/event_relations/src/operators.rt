ghost use Rattle.std.specs.Prelude.{◌≡◌, ℕ, ◌<◌, ◌≤◌, ◌&&◌, ◌||◌, true, length, ◌↔◌, ◌⊎◌, slice_index, bit_or};
ghost use Rattle.std.specs.Int.{bit_at};
ghost use Rattle.event_relations.specs.Rows.{has, ReachesFrom};

/// What the first bit of a row's upper half stands for.
const HALF: u128 = 1 << 64;

/// Puts the pairs of the right rows into the left ones.
pub fn unite(left: &mut [u128], right: &[u128])
    requires same { length left.old ≡ length right.now }
    ensures length { length left.new ≡ length left.old }
    ensures words { (a : ℕ) → slice_index left.new a ≡ bit_or (slice_index left.old a) (slice_index right.now a) }
    ensures bits { (a b : ℕ) → has left.new a b ≡ has left.old a b || has right.now a b }
{
    for a in 0..left.len() {
        left[a] = left[a] | right[a];
    }
}

/// Keeps of the left rows what the right ones have too.
pub fn meet(left: &mut [u128], right: &[u128])
    requires same { length left.old ≡ length right.now }
    ensures length { length left.new ≡ length left.old }
    ensures bits { (a b : ℕ) → has left.new a b ≡ has left.old a b && has right.now a b }
{
    for a in 0..left.len() {
        left[a] = left[a] & right[a];
    }
}

/// `all` with what the rows have whose bit is set in the word; its lowest bit stands for row `first`.
fn gathered(all: u128, word: u64, first: usize, rows: &[u128]) -> u128
    requires first { first ≤ 64 }
    ensures { (b : ℕ) → (bit_at result b ≡ 1) ↔ ((bit_at all b ≡ 1) ⊎ ReachesFrom rows.now first word b) }
{
    let mut all = all;
    let mut rest = word;
    while rest != 0 {
        let c = first + rest.trailing_zeros() as usize;
        if c < rows.len() {
            all = all | rows[c];
        }
        rest = rest & (rest - 1);
    }
    all
}

/// The row of all that the rows of a row's numbers have.
fn through(row: u128, rows: &[u128]) -> u128
    ensures { (b : ℕ) → (bit_at result b ≡ 1) ↔ ((c : ℕ) × (bit_at row c ≡ 1) × (has rows.now c b ≡ true)) }
{
    // A processor finds the lowest set bit of 64 at once; of 128 it doesn't.
    let low = gathered(0, (row % HALF) as u64, 0, rows);
    gathered(low, (row / HALF) as u64, 64, rows)
}

/// Makes of the left rows each pair of a left one with a right one from where it ends.
pub fn compose(left: &mut [u128], right: &[u128])
    ensures length { length left.new ≡ length left.old }
    ensures bits { (a b : ℕ) → (has left.new a b ≡ true) ↔ ((c : ℕ) × (has left.old a c ≡ true) × (has right.now c b ≡ true)) }
{
    for a in 0..left.len() {
        left[a] = through(left[a], right);
    }
}
