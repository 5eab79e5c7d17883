ghost use Rattle.std.specs.Prelude.{◌≡◌, ◌↔◌, ◌⊎◌, ℕ, ◌<◌, ◌≤◌, true, length};
ghost use Rattle.std.specs.Int.{bit_at};
ghost use Rattle.fer_events.specs.Pairs.{has_pair};
ghost use Rattle.event_relations.specs.Showing.{shown, IsLater};

use fer_events::Pairs;

/// Puts among the pairs those of a row whose second event comes later: bit b of it is event a with event b + 1.
fn put_row(pairs: &mut Pairs, a: u32, row: u128)
    requires first { (1 ≤ a) × (a ≤ pairs.old.n) }
    ensures n { pairs.new.n ≡ pairs.old.n }
    ensures pairs { (x y : ℕ) → (has_pair pairs.new.pairs x y ≡ true) ↔ ((has_pair pairs.old.pairs x y ≡ true) ⊎ ((x ≡ a) × IsLater pairs.old.n a row y)) }
{
    for b in a..pairs.n() {
        if (row >> b) & 1 == 1 {
            pairs.set(a, b + 1);
        }
    }
}

/// Puts among the pairs those of the rows whose second event comes later.
pub fn put_forward(pairs: &mut Pairs, rows: &[u128])
    requires long { length rows.now ≡ pairs.old.n }
    ensures n { pairs.new.n ≡ pairs.old.n }
    ensures pairs { (x y : ℕ) → (has_pair pairs.new.pairs x y ≡ true) ↔ ((has_pair pairs.old.pairs x y ≡ true) ⊎ ((x < y) × (y ≤ pairs.old.n) × shown rows.now x y)) }
{
    for a in 0..pairs.n() {
        let row = rows[a as usize];

        // Most `keep` lines relate few events, so most rows have no later one.
        if row >> a > 1 {
            put_row(pairs, a + 1, row);
        }
    }
}
