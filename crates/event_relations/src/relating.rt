ghost use Rattle.std.specs.Prelude.{◌≡◌, ℕ, suc, ◌<◌, ◌≤◌, ◌&&◌, ◌||◌, true, false, [], length, ◌↔◌, IfOk, All, slice_index, slice_index_or, bit_or};
ghost use Rattle.model_reader.specs.declared.expr.Expr.{Expr};
ghost use Rattle.model_reader.specs.declared.expr.Expr.TheVariants as expr;
ghost use Rattle.event_relations.specs.Rows.{has, Joins};
ghost use Rattle.event_relations.specs.Lexicons.{IsLexicon};
ghost use Rattle.event_relations.specs.Meaning.{Means};
ghost use Rattle.event_relations.specs.Showing.{IsTransitive, Shows, names_shown};

use crate::lexicon::Lexicon;
use crate::operators::{compose, meet, unite};
use crate::rows::{close, empty_rows};
use fer_events::Event;
use fer_list::Seq;
use model_reader::Expr;
use std::alloc::{AllocError, Global};

/// The left rows with the pairs of the right ones.
pub fn united(left: Seq<u128>, right: &[u128]) -> Seq<u128>
    requires same { length left ≡ length right.now }
    ensures length { length result ≡ length left }
    ensures words { (a : ℕ) → slice_index result a ≡ bit_or (slice_index left a) (slice_index right.now a) }
    ensures bits { (a b : ℕ) → has result a b ≡ has left a b || has right.now a b }
{
    let mut rows = left.into_vec();
    unite(rows.as_mut_slice(), right);
    Seq::from_vec(rows)
}

/// What an operator with two operands makes of their rows.
fn operated(x: &Expr, left: Seq<u128>, right: &[u128]) -> Seq<u128>
    requires same { length left ≡ length right.now }
    ensures length { length result ≡ length left }
    ensures union { (l r : Expr) → x.now ≡ expr.Or l r → (a b : ℕ) → has result a b ≡ has left a b || has right.now a b }
    ensures intersection { (l r : Expr) → x.now ≡ expr.And l r → (a b : ℕ) → has result a b ≡ has left a b && has right.now a b }
    ensures sequence { (l r : Expr) → x.now ≡ expr.Seq l r
        → (a b : ℕ) → (has result a b ≡ true) ↔ ((c : ℕ) × (has left a c ≡ true) × (has right.now c b ≡ true)) }
{
    let mut rows = left.into_vec();
    match x {
        Expr::And { .. } => meet(rows.as_mut_slice(), right),
        Expr::Seq { .. } => compose(rows.as_mut_slice(), right),
        _ => unite(rows.as_mut_slice(), right),
    }
    Seq::from_vec(rows)
}

/// Whether it is plain that the expression relates all that a path of its pairs joins: so does each word, and a closure.
fn is_transitive(x: &Expr) -> bool
    ensures { result ≡ true → IsTransitive x.now }
{
    match x {
        Expr::Named { .. } | Expr::Or { .. } | Expr::And { .. } | Expr::Seq { .. } => false,
        _ => true,
    }
}

/// Each pair that a path of one or more joins, where the rows are those of the expression.
fn closed(x: &Expr, rows: Seq<u128>) -> Seq<u128>
    requires few { length rows ≤ 128 }
    requires paths { IsTransitive x.now → (a b : ℕ) → Joins rows a b → has rows a b ≡ true }
    ensures length { length result ≡ length rows }
    ensures joined { (a b : ℕ) → (has result a b ≡ true) ↔ Joins rows a b }
{
    if is_transitive(x) {
        return rows;
    }
    let mut rows = rows.into_vec();
    close(rows.as_mut_slice());
    Seq::from_vec(rows)
}

/// The rows of a name; a name without rows stands for none.
fn named_rows(
    alloc: Global,
    count: usize,
    names: &[Seq<u128>],
    index: u32,
) -> Result<Seq<u128>, AllocError>
    requires long { All (λ rows. length rows ≡ count) names.now }
    ensures length { IfOk result (λ rows. length rows ≡ count) }
    ensures bits { IfOk result (λ rows. (a b : ℕ) → has rows a b ≡ has (slice_index_or names.now index []) a b) }
{
    match names.get(index as usize) {
        None => {
            let rows = empty_rows(alloc, count)?;
            Ok(rows)
        }
        Some(rows) => {
            let rows = Seq::from_slice(alloc, rows.as_slice())?;
            Ok(rows)
        }
    }
}

/// The rows of what the expression relates, where the names stand for these rows. Its stack is as deep as the expression.
pub fn relate(
    alloc: Global,
    events: &[Event],
    words: &Lexicon,
    names: &[Seq<u128>],
    x: &Expr,
) -> Result<Seq<u128>, AllocError>
    requires few { length events.now ≤ 128 }
    requires words { IsLexicon events.now words.now }
    requires long { All (λ rows. length rows ≡ length events.now) names.now }
    ensures length { IfOk result (λ rows. length rows ≡ length events.now) }
    ensures shows { IfOk result (λ rows. Shows rows (Means events.now (names_shown names.now) x.now)) }
{
    // A line nests expressions more than 500 deep. Each call's result takes room in the frame, so the arms are few.
    let rows = match x {
        Expr::Named { index } => named_rows(alloc, events.len(), names, *index)?,
        Expr::Or { left, right } | Expr::And { left, right } | Expr::Seq { left, right } => {
            let left_rows = relate(alloc, events, words, names, left.get())?;
            let right_rows = relate(alloc, events, words, names, right.get())?;
            operated(x, left_rows, right_rows.as_slice())
        }
        Expr::Plus { inner } => {
            let inner_rows = relate(alloc, events, words, names, inner.get())?;
            closed(inner.get(), inner_rows)
        }
        _ => words.rows(alloc, events, x)?,
    };
    Ok(rows)
}
