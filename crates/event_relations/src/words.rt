ghost use Rattle.std.specs.Prelude.{◌≡◌, ℕ, suc, ◌<◌, ◌≤◌, true, ◌↔◌};
ghost use Rattle.fer_events.specs.declared.event.Event.{Event};
ghost use Rattle.event_relations.specs.Words.{BothCarry, Relates};
ghost use Rattle.event_relations.specs.Lexicons.{as_expr};

use fer_events::Event;

/// A word of models that relates two events by what they carry or by their numbers.
#[derive(Clone, Copy)]
pub enum Word {
    Po,
    Id,
    Any,
    SameFile,
    SameBlock,
    SameDir,
    SameName,
    SameCall,
    SameTxn,
}

/// Whether both carry a number here, and the same.
fn both_carry(left: Option<u32>, right: Option<u32>) -> bool
    ensures { (result ≡ true) ↔ BothCarry left right }
{
    match (left, right) {
        (Some(m), Some(n)) => m == n,
        _ => false,
    }
}

/// Whether the word relates event e to event f, which have the numbers a and b counted from 0.
pub fn relates(a: usize, b: usize, e: &Event, f: &Event, word: Word) -> bool
    ensures { (result ≡ true) ↔ Relates (suc a) (suc b) e.now f.now (as_expr word) }
{
    match word {
        Word::Po => a < b,
        Word::Id => a == b,
        Word::Any => true,
        Word::SameFile => both_carry(e.file, f.file),
        Word::SameBlock => {
            if !both_carry(e.file, f.file) {
                return false;
            }
            both_carry(e.block, f.block)
        }
        Word::SameDir => both_carry(e.dir, f.dir),
        Word::SameName => both_carry(e.slot, f.slot),
        Word::SameCall => e.call == f.call,
        Word::SameTxn => e.txn == f.txn,
    }
}

/// Whether it is plain that the word relates the event to none: it asks for a number that the event doesn't carry.
pub fn is_alone(e: &Event, word: Word) -> bool
    ensures { result ≡ true → (a b : ℕ) (f : Event) → Relates a b e.now f (as_expr word) → ⊥ }
{
    match word {
        Word::SameFile | Word::SameBlock => !both_carry(e.file, e.file),
        Word::SameDir => !both_carry(e.dir, e.dir),
        Word::SameName => !both_carry(e.slot, e.slot),
        _ => false,
    }
}
