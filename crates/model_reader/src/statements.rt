ghost use Rattle.std.specs.Prelude.{◌≡◌, ℕ, List, ◌∷◌, codes, MatchOption};
ghost use Rattle.lexeme_reader.specs.declared.reading.Lexeme.{Lexeme};
ghost use Rattle.lexeme_reader.specs.declared.reading.Lexeme.TheVariants as says;
ghost use Rattle.model_reader.specs.Statements.{Statement, statement_lexemes};
ghost use Rattle.model_reader.specs.Drafts.{statement_of};

use lexeme_reader::{Lexeme, behind_word};
use litmus_syntax::Text;

/// What a line states.
#[derive(Debug, Drop)]
pub enum Said<'a> {
    /// The name of the model, and the version, if it is named.
    Head(&'a Text, Option<u32>),
    /// Whether the definition is recursive, its name, and the tokens that have to be an expression.
    Let(bool, &'a Text, &'a [Lexeme]),
    /// The tokens that have to be an expression.
    Keep(&'a [Lexeme]),
    End,
}

/// The name at the front, and the tokens behind the `=` that follows it.
fn name_at(lexemes: &[Lexeme]) -> Option<(&Text, &[Lexeme])>
    ensures { MatchOption result
        ((name : List ℕ) (value : List Lexeme) → lexemes.now ≡ says.Word name ∷ says.Sign 61 ∷ value → ⊥)
        (λ found. lexemes.now ≡ says.Word found.0.now ∷ says.Sign 61 ∷ found.1.now) }
{
    let (first, rest) = lexemes.split_first()?;
    let (second, value) = rest.split_first()?;
    match (first, second) {
        (Lexeme::Word(name), Lexeme::Sign(b'=')) => Some((name, value)),
        _ => None,
    }
}

/// The head with these tokens behind its first word.
fn head(rest: &[Lexeme]) -> Option<Said>
    ensures { MatchOption result
        ((s : Statement) → says.Word (codes "model") ∷ rest.now ≡ statement_lexemes s → ⊥)
        (λ said. says.Word (codes "model") ∷ rest.now ≡ statement_lexemes (statement_of said)) }
{
    match rest {
        [Lexeme::Word(name)] => Some(Said::Head(name, None)),
        [Lexeme::Word(name), Lexeme::Number(Some(version))] => {
            Some(Said::Head(name, Some(*version)))
        }
        _ => None,
    }
}

/// The definition with these tokens behind its first word.
fn definition(rest: &[Lexeme]) -> Option<Said>
    ensures { MatchOption result
        ((s : Statement) → says.Word (codes "let") ∷ rest.now ≡ statement_lexemes s → ⊥)
        (λ said. says.Word (codes "let") ∷ rest.now ≡ statement_lexemes (statement_of said)) }
{
    if let Some((name, value)) = name_at(rest) {
        return Some(Said::Let(false, name, value));
    }
    let behind = behind_word(rest, b"rec")?;
    let (name, value) = name_at(behind)?;
    Some(Said::Let(true, name, value))
}

/// What the tokens of a line state, if they state something.
pub fn said_by(lexemes: &[Lexeme]) -> Option<Said>
    ensures { MatchOption result
        ((s : Statement) → lexemes.now ≡ statement_lexemes s → ⊥)
        (λ said. lexemes.now ≡ statement_lexemes (statement_of said)) }
{
    if let Some(rest) = behind_word(lexemes, b"model") {
        return head(rest);
    }
    if let Some(rest) = behind_word(lexemes, b"let") {
        return definition(rest);
    }
    if let Some(rest) = behind_word(lexemes, b"keep") {
        return Some(Said::Keep(rest));
    }
    match behind_word(lexemes, b"end") {
        Some([]) => Some(Said::End),
        _ => None,
    }
}
