ghost use Rattle.std.specs.Prelude.{◌≡◌, ◌≤◌, List, [], length, IfOk};
ghost use Rattle.model_reader.specs.declared.words.Vocabulary.{Vocabulary};
ghost use Rattle.model_reader.specs.declared.reading.Place.TheVariants as place;
ghost use Rattle.model_reader.specs.Machine.{inner_closed, sign_behind, sign_due, stepped, ended, expression_of, shown};

use crate::expr::Expr;
use crate::waiting::Waiting;
use crate::words::{Vocabulary, bit_of, word_of};
use lexeme_reader::Lexeme;
use litmus_syntax::Text;
use sqlite_items::Boxed;
use std::alloc::{AllocError, Global};
use std::collections::VecDeque;

/// What stands directly before a place of an expression.
#[derive(Debug, Drop)]
pub enum Place {
    /// An operand is due.
    Operand,
    /// A `[` and the kinds behind it: their bits, and whether there are some.
    Brackets { bits: u16, some: bool },
    /// An operand, and what it is.
    Behind { value: Boxed<Expr> },
}

/// Behind a `)`: all that waits inside is an operand of what waits around it.
fn inner_closed(
    alloc: Global,
    waiting: Waiting,
    value: Boxed<Expr>,
    outer: &mut VecDeque<Waiting>,
) -> Result<Option<(Place, Waiting)>, AllocError>
    ensures { IfOk result (λ o. shown o outer.new.items ≡ inner_closed waiting value outer.old.items) }
{
    let Some(around) = outer.pop_front() else {
        return Ok(None);
    };
    let value = waiting.whole(alloc, value)?;
    Ok(Some((Place::Behind { value }, around)))
}

/// Behind a sign that stands behind an operand.
fn sign_behind(
    alloc: Global,
    sign: u8,
    waiting: Waiting,
    value: Boxed<Expr>,
    outer: &mut VecDeque<Waiting>,
) -> Result<Option<(Place, Waiting)>, AllocError>
    ensures { IfOk result (λ o. shown o outer.new.items ≡ sign_behind sign waiting value outer.old.items) }
{
    match sign {
        b'+' => {
            let value = Boxed::new(alloc, Expr::Plus { inner: value })?;
            Ok(Some((Place::Behind { value }, waiting)))
        }
        b')' => {
            let found = inner_closed(alloc, waiting, value, outer)?;
            Ok(found)
        }
        b';' => {
            let waiting = waiting.behind_sequence(alloc, value)?;
            Ok(Some((Place::Operand, waiting)))
        }
        b'&' => {
            let waiting = waiting.behind_intersection(alloc, value)?;
            Ok(Some((Place::Operand, waiting)))
        }
        b'|' => {
            let waiting = waiting.behind_union(alloc, value)?;
            Ok(Some((Place::Operand, waiting)))
        }
        _ => Ok(None),
    }
}

/// Behind a sign where an operand is due.
fn sign_due(
    sign: u8,
    waiting: Waiting,
    outer: &mut VecDeque<Waiting>,
) -> Result<Option<(Place, Waiting)>, AllocError>
    ensures { IfOk result (λ o. shown o outer.new.items ≡ sign_due sign waiting outer.old.items) }
{
    match sign {
        b'(' => match outer.push_front(waiting) {
            Err(_) => Err(AllocError),
            Ok(()) => Ok(Some((Place::Operand, Waiting::nothing()))),
        },
        b'[' => Ok(Some((
            Place::Brackets {
                bits: 0,
                some: false,
            },
            waiting,
        ))),
        _ => Ok(None),
    }
}

/// Behind a token where an operand is due.
fn operand_due(
    alloc: Global,
    words: Vocabulary,
    names: &[Text],
    waiting: Waiting,
    outer: &mut VecDeque<Waiting>,
    token: &Lexeme,
) -> Result<Option<(Place, Waiting)>, AllocError>
    requires { length names.now ≤ 256 }
    ensures { IfOk result (λ o. shown o outer.new.items ≡ stepped words names.now place.Operand waiting outer.old.items token.now) }
{
    match token {
        Lexeme::Word(word) => {
            let Some(found) = word_of(words, names, word.as_slice()) else {
                return Ok(None);
            };
            let value = Boxed::new(alloc, found)?;
            Ok(Some((Place::Behind { value }, waiting)))
        }
        Lexeme::Sign(sign) => {
            let found = sign_due(*sign, waiting, outer)?;
            Ok(found)
        }
        _ => Ok(None),
    }
}

/// Behind a token in brackets.
fn listed(
    alloc: Global,
    words: Vocabulary,
    bits: u16,
    some: bool,
    waiting: Waiting,
    token: &Lexeme,
) -> Result<Option<(Place, Waiting)>, AllocError>
    ensures { (outer : List _) → IfOk result (λ o. shown o outer ≡ stepped words [] (place.Brackets bits some) waiting outer token.now) }
{
    match token {
        Lexeme::Word(word) => {
            let Some(bit) = bit_of(words, word.as_slice()) else {
                return Ok(None);
            };
            Ok(Some((
                Place::Brackets {
                    bits: bits | bit,
                    some: true,
                },
                waiting,
            )))
        }
        Lexeme::Sign(b']') if some => {
            let value = Boxed::new(alloc, Expr::Kinds { bits })?;
            Ok(Some((Place::Behind { value }, waiting)))
        }
        _ => Ok(None),
    }
}

/// Behind one more token, if it may stand there.
fn stepped(
    alloc: Global,
    words: Vocabulary,
    names: &[Text],
    standing: (Place, Waiting),
    outer: &mut VecDeque<Waiting>,
    token: &Lexeme,
) -> Result<Option<(Place, Waiting)>, AllocError>
    requires { length names.now ≤ 256 }
    ensures { IfOk result (λ o. shown o outer.new.items ≡ stepped words names.now standing.0 standing.1 outer.old.items token.now) }
{
    let (place, waiting) = standing;
    match place {
        Place::Operand => {
            let found = operand_due(alloc, words, names, waiting, outer, token)?;
            Ok(found)
        }
        Place::Brackets { bits, some } => {
            let found = listed(alloc, words, bits, some, waiting, token)?;
            Ok(found)
        }
        Place::Behind { value } => {
            let Lexeme::Sign(sign) = token else {
                return Ok(None);
            };
            let found = sign_behind(alloc, *sign, waiting, value, outer)?;
            Ok(found)
        }
    }
}

/// The expression at the end.
fn ended(
    alloc: Global,
    standing: (Place, Waiting),
    outer: &VecDeque<Waiting>,
) -> Result<Option<Boxed<Expr>>, AllocError>
    ensures { IfOk result (λ o. o ≡ ended standing.0 standing.1 outer.now.items) }
{
    let (place, waiting) = standing;
    let Place::Behind { value } = place else {
        return Ok(None);
    };
    if !outer.is_empty() {
        return Ok(None);
    }
    let whole = waiting.whole(alloc, value)?;
    Ok(Some(whole))
}

/// The expression that the tokens are, and nothing where they are none.
pub fn expression(
    alloc: Global,
    words: Vocabulary,
    names: &[Text],
    tokens: &[Lexeme],
) -> Result<Option<Boxed<Expr>>, AllocError>
    requires { length names.now ≤ 256 }
    ensures { IfOk result (λ o. o ≡ expression_of words names.now tokens.now) }
{
    let mut outer = VecDeque::new(alloc);
    let mut standing = (Place::Operand, Waiting::nothing());
    let mut rest = tokens;
    while let Some((token, behind)) = rest.split_first() {
        standing = match stepped(alloc, words, names, standing, &mut outer, token)? {
            None => return Ok(None),
            Some(standing) => standing,
        };
        rest = behind;
    }
    let found = ended(alloc, standing, &outer)?;
    Ok(found)
}
