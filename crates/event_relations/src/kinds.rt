ghost use Rattle.std.specs.Prelude.{◌≡◌, ℕ, ◌<◌, ◌≤◌, length, ◌↔◌, IfOk};
ghost use Rattle.std.specs.Int.{bit_at};
ghost use Rattle.model_reader.specs.declared.expr.Expr.TheVariants as expr;
ghost use Rattle.event_relations.specs.Words.{kind_place};
ghost use Rattle.event_relations.specs.Lexicons.{ShowsWord};

use fer_events::{Event, Kind};
use fer_list::Seq;
use std::alloc::{AllocError, Global};

/// The place of a kind among the kinds, from 0.
fn place_of(kind: Kind) -> u32
    ensures place { result ≡ kind_place kind }
    ensures few { result < 10 }
{
    match kind {
        Kind::Write => 0,
        Kind::Extend => 1,
        Kind::Trunc => 2,
        Kind::Attr => 3,
        Kind::Link => 4,
        Kind::Unlink => 5,
        Kind::Fsync => 6,
        Kind::FsyncDir => 7,
        Kind::Sync => 8,
        Kind::Mark => 9,
    }
}

/// The row of event a, counted from 0: itself, where its kind is one of these.
fn kind_row(a: usize, kind: Kind, bits: u16) -> u128
    requires few { a < 128 }
    ensures { (b : ℕ) → (bit_at result b ≡ 1) ↔ ((b ≡ a) × (bit_at bits (kind_place kind) ≡ 1)) }
{
    if (bits >> place_of(kind)) & 1 == 1 {
        1 << a
    } else {
        0
    }
}

/// The rows of a set of kinds, which relates each event of its kinds to itself. Bit k of the set is the kind at place k.
pub fn kind_rows(alloc: Global, events: &[Event], bits: u16) -> Result<Seq<u128>, AllocError>
    requires few { length events.now ≤ 128 }
    ensures { IfOk result (λ rows. ShowsWord events.now (expr.Kinds bits) rows) }
{
    let mut rows = Seq::new(alloc);
    for a in 0..events.len() {
        rows.push(kind_row(a, events[a].kind, bits))?;
    }
    Ok(rows)
}
