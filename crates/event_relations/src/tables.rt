ghost use Rattle.std.specs.Prelude.{◌≡◌, ℕ, suc, ◌<◌, ◌≤◌, length, ◌↔◌, IfOk, slice_get, Some};
ghost use Rattle.std.specs.Int.{bit_at};
ghost use Rattle.fer_events.specs.declared.event.Event.{Event};
ghost use Rattle.event_relations.specs.Words.{Relates};
ghost use Rattle.event_relations.specs.Lexicons.{ShowsWord, as_expr};

use crate::words::{Word, is_alone, relates};
use fer_events::Event;
use fer_list::Seq;
use std::alloc::{AllocError, Global};

/// The row of the events that the word relates event e to, which has the number a counted from 0.
fn word_row(a: usize, e: &Event, events: &[Event], word: Word) -> u128
    requires few { length events.now ≤ 128 }
    ensures { (b : ℕ) → (bit_at result b ≡ 1) ↔ ((f : Event) × (slice_get events.now b ≡ Some f) × Relates (suc a) (suc b) e.now f (as_expr word)) }
{
    if is_alone(e, word) {
        return 0;
    }
    let mut row = 0;
    for b in 0..events.len() {
        if relates(a, b, e, &events[b], word) {
            row = row | (1 << b);
        }
    }
    row
}

/// The rows of what the word relates.
pub fn word_rows(alloc: Global, events: &[Event], word: Word) -> Result<Seq<u128>, AllocError>
    requires few { length events.now ≤ 128 }
    ensures { IfOk result (λ rows. ShowsWord events.now (as_expr word) rows) }
{
    let mut rows = Seq::new(alloc);
    for a in 0..events.len() {
        let row = word_row(a, &events[a], events, word);
        rows.push(row)?;
    }
    Ok(rows)
}
