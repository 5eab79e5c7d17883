ghost use Rattle.std.specs.Prelude.{◌≡◌, List, ◌∷◌, MatchOption};
ghost use Rattle.lexeme_reader.specs.declared.reading.Lexeme.{Lexeme};
ghost use Rattle.lexeme_reader.specs.declared.reading.Lexeme.TheVariants as says;

use crate::reading::Lexeme;

/// The tokens behind this word, if they begin with it.
pub fn behind_word<'a>(lexemes: &'a [Lexeme], word: &[u8]) -> Option<&'a [Lexeme]>
    ensures { MatchOption result
        ((rest : List Lexeme) → lexemes.now ≡ says.Word word.now ∷ rest → ⊥)
        (λ rest. lexemes.now ≡ says.Word word.now ∷ rest.now) }
{
    match lexemes.split_first() {
        Some((Lexeme::Word(first), rest)) if first.as_slice() == word => Some(rest),
        _ => None,
    }
}
