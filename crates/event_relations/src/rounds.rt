ghost use Rattle.std.specs.Prelude.{◌≡◌, ℕ, ◌<◌, ◌≤◌, true, length, All, OnOk, MatchBool, IfOk};
ghost use Rattle.event_relations.specs.Rows.{AreAmong, HasNew};
ghost use Rattle.event_relations.specs.Lexicons.{IsLexicon};
ghost use Rattle.event_relations.specs.Showing.{AreNames, HasOneMore, NamesWithin, names_shown};

use crate::lexicon::Lexicon;
use crate::relating::{relate, united};
use crate::rows::empty_rows;
use fer_events::Event;
use fer_list::Seq;
use model_reader::{Definition, Expr};
use std::alloc::{AllocError, Global};

/// Whether the right rows have each pair of the left ones.
fn are_within(left: &[u128], right: &[u128]) -> bool
    requires same { length left.now ≡ length right.now }
    ensures { MatchBool result (AreAmong left.now right.now) (HasNew left.now right.now) }
{
    for a in 0..left.len() {
        if left[a] | right[a] != right[a] {
            return false;
        }
    }
    true
}

/// Puts behind the names the rows of one that may name itself: rounds from no pairs on, until one adds none.
fn define_least(
    alloc: Global,
    events: &[Event],
    words: &Lexicon,
    names: &mut Seq<Seq<u128>>,
    value: &Expr,
) -> Result<(), AllocError>
    requires few { length events.now ≤ 128 }
    requires words { IsLexicon events.now words.now }
    requires long { All (λ rows. length rows ≡ length events.now) names.old }
    requires within { NamesWithin events.now (names_shown names.old) }
    ensures { OnOk result (HasOneMore events.now true value.now names.old names.new) }
{
    let own = names.len();
    let none = empty_rows(alloc, events.len())?;
    names.push(none)?;
    loop {
        let more = relate(alloc, events, words, names.as_slice(), value)?;
        let rows = names.get(own);
        if are_within(more.as_slice(), rows.as_slice()) {
            return Ok(());
        }
        let rows = united(more, rows.as_slice());
        names.set(own, rows);
    }
}

/// Puts behind the names the rows of what the definition means over them.
fn define(
    alloc: Global,
    events: &[Event],
    words: &Lexicon,
    names: &mut Seq<Seq<u128>>,
    definition: &Definition,
) -> Result<(), AllocError>
    requires few { length events.now ≤ 128 }
    requires words { IsLexicon events.now words.now }
    requires long { All (λ rows. length rows ≡ length events.now) names.old }
    requires within { NamesWithin events.now (names_shown names.old) }
    ensures { OnOk result (HasOneMore events.now definition.now.recursive definition.now.value names.old names.new) }
{
    if definition.recursive {
        define_least(alloc, events, words, names, &definition.value)?;
    } else {
        let rows = relate(alloc, events, words, names.as_slice(), &definition.value)?;
        names.push(rows)?;
    }
    Ok(())
}

/// The rows of what the names of the definitions stand for.
pub fn name_rows(
    alloc: Global,
    events: &[Event],
    words: &Lexicon,
    lets: &[Definition],
) -> Result<Seq<Seq<u128>>, AllocError>
    requires few { length events.now ≤ 128 }
    requires words { IsLexicon events.now words.now }
    ensures { IfOk result (λ names. AreNames events.now lets.now names) }
{
    let mut names = Seq::new(alloc);
    for definition in lets {
        define(alloc, events, words, &mut names, definition)?;
    }
    Ok(names)
}
