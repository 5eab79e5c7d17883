ghost use Rattle.std.specs.Prelude.{◌≡◌, None, MatchBool};
ghost use Rattle.lexeme_reader.specs.declared.reading.Lexeme.TheVariants.{Number};
ghost use Rattle.predicate_reader.specs.Predicates.{AreInRange};

use lexeme_reader::Lexeme;

/// Whether the token is a number that is out of range.
fn is_wide(lexeme: &Lexeme) -> bool
    ensures { MatchBool result (lexeme.now ≡ Number None) (lexeme.now ≡ Number None → ⊥) }
{
    matches!(lexeme, Lexeme::Number(None))
}

/// Whether each number is in range, which is 2^32 - 1 at most.
pub fn are_in_range(lexemes: &[Lexeme]) -> bool
    ensures { MatchBool result (AreInRange lexemes.now) (AreInRange lexemes.now → ⊥) }
{
    let mut rest = lexemes;
    while let Some((first, behind)) = rest.split_first() {
        if is_wide(first) {
            return false;
        }
        rest = behind;
    }
    true
}
