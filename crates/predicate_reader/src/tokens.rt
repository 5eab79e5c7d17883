ghost use Rattle.std.specs.Prelude.{◌≡◌, ℕ, List, ◌∷◌, Some, MatchOption};
ghost use Rattle.lexeme_reader.specs.declared.reading.Lexeme.{Lexeme};
ghost use Rattle.lexeme_reader.specs.declared.reading.Lexeme.TheVariants as says;

use lexeme_reader::Lexeme;
use litmus_syntax::{Path, Text};

/// The tokens behind this sign, if they begin with it.
pub fn behind_sign(lexemes: &[Lexeme], sign: u8) -> Option<&[Lexeme]>
    ensures { MatchOption result
        ((rest : List Lexeme) → lexemes.now ≡ says.Sign sign ∷ rest → ⊥)
        (λ rest. lexemes.now ≡ says.Sign sign ∷ rest.now) }
{
    match lexemes.split_first() {
        Some((Lexeme::Sign(first), rest)) if *first == sign => Some(rest),
        _ => None,
    }
}

/// The word at the front, and the tokens behind it.
pub fn word_at(lexemes: &[Lexeme]) -> Option<(&Text, &[Lexeme])>
    ensures { MatchOption result
        ((word : List ℕ) (rest : List Lexeme) → lexemes.now ≡ says.Word word ∷ rest → ⊥)
        (λ found. lexemes.now ≡ says.Word found.0.now ∷ found.1.now) }
{
    match lexemes.split_first() {
        Some((Lexeme::Word(word), rest)) => Some((word, rest)),
        _ => None,
    }
}

/// The path at the front, and the tokens behind it.
pub fn path_at(lexemes: &[Lexeme]) -> Option<(&Path, &[Lexeme])>
    ensures { MatchOption result
        ((path : List (List ℕ)) (rest : List Lexeme) → lexemes.now ≡ says.Path path ∷ rest → ⊥)
        (λ found. lexemes.now ≡ says.Path found.0.now ∷ found.1.now) }
{
    match lexemes.split_first() {
        Some((Lexeme::Path(path), rest)) => Some((path, rest)),
        _ => None,
    }
}

/// The text at the front, and the tokens behind it.
pub fn text_at(lexemes: &[Lexeme]) -> Option<(&Text, &[Lexeme])>
    ensures { MatchOption result
        ((text : List ℕ) (rest : List Lexeme) → lexemes.now ≡ says.Text text ∷ rest → ⊥)
        (λ found. lexemes.now ≡ says.Text found.0.now ∷ found.1.now) }
{
    match lexemes.split_first() {
        Some((Lexeme::Text(text), rest)) => Some((text, rest)),
        _ => None,
    }
}

/// The number at the front, if it is in range, and the tokens behind it.
pub fn number_at(lexemes: &[Lexeme]) -> Option<(u32, &[Lexeme])>
    ensures { MatchOption result
        ((number : ℕ) (rest : List Lexeme) → lexemes.now ≡ says.Number (Some number) ∷ rest → ⊥)
        (λ found. lexemes.now ≡ says.Number (Some found.0) ∷ found.1.now) }
{
    match lexemes.split_first() {
        Some((Lexeme::Number(Some(number)), rest)) => Some((*number, rest)),
        _ => None,
    }
}

/// The path at the front behind its `(`, and the tokens behind it.
pub fn open_path_at(lexemes: &[Lexeme]) -> Option<(&Path, &[Lexeme])>
    ensures { MatchOption result
        ((path : List (List ℕ)) (rest : List Lexeme) → lexemes.now ≡ says.Sign 40 ∷ says.Path path ∷ rest → ⊥)
        (λ found. lexemes.now ≡ says.Sign 40 ∷ says.Path found.0.now ∷ found.1.now) }
{
    let Some(behind) = behind_sign(lexemes, b'(') else {
        return None;
    };
    match path_at(behind) {
        None => None,
        Some((path, rest)) => Some((path, rest)),
    }
}

/// The tokens behind `)` and `=`, if they begin with both.
pub fn behind_equals(lexemes: &[Lexeme]) -> Option<&[Lexeme]>
    ensures { MatchOption result
        ((rest : List Lexeme) → lexemes.now ≡ says.Sign 41 ∷ says.Sign 61 ∷ rest → ⊥)
        (λ rest. lexemes.now ≡ says.Sign 41 ∷ says.Sign 61 ∷ rest.now) }
{
    let Some(behind) = behind_sign(lexemes, b')') else {
        return None;
    };
    match behind_sign(behind, b'=') {
        None => None,
        Some(rest) => Some(rest),
    }
}
