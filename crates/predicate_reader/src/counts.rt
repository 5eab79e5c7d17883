ghost use Rattle.std.specs.Prelude.{◌≡◌, ◌<◌, ◌≤◌, [], ◌∷◌, bytes_eq, codes, map, sum, MatchBool};
ghost use Rattle.std.specs.List.{list_any};
ghost use Rattle.litmus_syntax.specs.Counts.{atom_words};
ghost use Rattle.predicate_reader.specs.Counts.{IsShort, is_word_of, word_count, text_size};

use crate::atoms::atom_name;
use lexeme_reader::{Lexeme, is_deep};
use litmus_syntax::{MOST_TEXT_BYTES, MOST_WORDS};

/// Whether an atom begins with this token, or is it.
fn is_atom_word(lexeme: &Lexeme) -> bool
    ensures { result ≡ is_word_of atom_words lexeme.now }
{
    match lexeme {
        Lexeme::Word(word) => is_counted(word.as_slice()),
        _ => false,
    }
}

/// Whether an atom begins with this word, or is it.
#[tactic(auto, using(crate::proofs::AtomWords::is_counted, crate::proofs::AtomWords::is_not_counted))]
fn is_counted(word: &[u8]) -> bool
    ensures { result ≡ list_any (bytes_eq word.now) atom_words }
{
    match atom_name(word) {
        None => false,
        Some(_name) => true,
    }
}

/// Whether the token is the word `not`.
fn is_not(lexeme: &Lexeme) -> bool
    ensures { result ≡ is_word_of (codes "not" ∷ []) lexeme.now }
{
    match lexeme {
        Lexeme::Word(word) => word.as_slice() == b"not".as_slice(),
        _ => false,
    }
}

/// How many bytes a text stands for.
fn text_size(lexeme: &Lexeme) -> usize
    ensures { result ≡ text_size lexeme.now }
{
    match lexeme {
        Lexeme::Text(text) => text.len(),
        _ => 0,
    }
}

/// Whether the texts have too many bytes together.
fn has_long_texts(asked: &[Lexeme]) -> bool
    ensures { MatchBool result (4096 < sum (map text_size asked.now)) (sum (map text_size asked.now) ≤ 4096) }
{
    let mut size = 0;
    let mut rest = asked;
    while let Some((lexeme, behind)) = rest.split_first() {
        let more = text_size(lexeme);
        if more > MOST_TEXT_BYTES - size {
            return true;
        }
        size += more;
        rest = behind;
    }
    false
}

/// How many of the tokens are words that atoms begin with, or are.
fn atom_word_count(asked: &[Lexeme]) -> usize
    ensures { result ≡ word_count atom_words asked.now }
{
    asked.iter().filter(|lexeme| is_atom_word(lexeme)).count()
}

/// How many of the tokens are the word `not`.
fn not_count(asked: &[Lexeme]) -> usize
    ensures { result ≡ word_count (codes "not" ∷ []) asked.now }
{
    asked.iter().filter(|lexeme| is_not(lexeme)).count()
}

/// Whether a question, of which these are the tokens behind its `:`, isn't too long: its texts have 4,096 bytes at most,
/// it has at most 256 words that atoms begin with, or are, and at most 256 words `not`, and at no place are more than
/// 64 parentheses open.
pub fn is_short(asked: &[Lexeme]) -> bool
    ensures { MatchBool result (IsShort asked.now) (IsShort asked.now → ⊥) }
{
    if has_long_texts(asked) {
        return false;
    }
    if atom_word_count(asked) > MOST_WORDS {
        return false;
    }
    if not_count(asked) > MOST_WORDS {
        return false;
    }
    !is_deep(asked)
}
