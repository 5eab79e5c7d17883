ghost use Rattle.std.specs.Prelude.{◌≡◌, ℕ, ◌∷◌, [], Option, List, IfOk, MatchOption, MatchBool};
ghost use Rattle.lexeme_reader.specs.declared.reading.Lexeme.{Lexeme};
ghost use Rattle.lexeme_reader.specs.declared.reading.Lexeme.TheVariants as says;
ghost use Rattle.litmus_reader.specs.declared.keywords.Keyword.{Keyword};
ghost use Rattle.litmus_syntax.specs.LitmusText.{question_word};
ghost use Rattle.litmus_reader.specs.Keywords.{keyword_text};
ghost use Rattle.litmus_reader.specs.Statements.{Statement, statement_lexemes, form_of};
ghost use Rattle.litmus_reader.specs.Versions.{version_has};
ghost use Rattle.litmus_reader.specs.Faults.{pairs};
ghost use Rattle.litmus_reader.specs.Read.{statement_of, IsRead};

use crate::call_kinds::{is_boundary, suits};
use crate::calls::{call_of, in_range};
use crate::keywords::{Keyword, keyword_of};
use lexeme_reader::Lexeme;
use litmus_syntax::{Call, Text};
use std::alloc::{AllocError, Global};

/// The forms that a line may have.
#[derive(Clone, Copy, Debug, PartialEq, Eq)]
pub enum Form {
    Head,
    Block,
    Sector,
    Setup,
    Body,
    Call,
    Question,
}

/// What a line states, before its numbers are known to be in range.
#[derive(Debug, Drop)]
pub enum Said<'a> {
    /// The name of the test, and the version, if it is named.
    Head(&'a Text, Option<u32>),
    /// The size of a block.
    Block(u32),
    /// The size of a sector.
    Sector(u32),
    Setup,
    Body,
    Called(Call),
    /// Whether a state is looked for in which the predicate is true, and the tokens that have to be one.
    Question(bool, &'a [Lexeme]),
}

impl<'a> Said<'a> {
    /// The form of the line.
    pub fn form(&self) -> Form
        ensures { result ≡ form_of (statement_of self.now) }
    {
        match self {
            Said::Head(..) => Form::Head,
            Said::Block(_) => Form::Block,
            Said::Sector(_) => Form::Sector,
            Said::Setup => Form::Setup,
            Said::Body => Form::Body,
            Said::Called(_) => Form::Call,
            Said::Question(..) => Form::Question,
        }
    }

    /// Whether a file of this version has such a line.
    pub fn is_of_version(&self, version: u32) -> bool
        ensures { result ≡ version_has version (statement_of self.now) }
    {
        match self {
            Said::Head(_, None) => true,
            Said::Head(_, Some(named)) => *named == 1 || *named == 2,
            Said::Sector(_) => version == 2,
            Said::Called(call) => !is_boundary(call) || version == 2,
            _ => true,
        }
    }

    /// Whether the line may stand in the body as far as transactions go, one being open or not.
    pub fn pairs(&self, inside: bool) -> bool
        ensures { result ≡ pairs inside (statement_of self.now) }
    {
        match self {
            Said::Called(call) => !is_boundary(call) || suits(inside, call),
            Said::Question(..) => !inside,
            _ => true,
        }
    }
}

/// The keyword that the tokens begin with, and the tokens behind it.
fn led(lexemes: &[Lexeme]) -> Option<(Keyword, &[Lexeme])>
    ensures { MatchOption result
        ((k : Keyword) (rest : List Lexeme) → lexemes.now ≡ says.Word (keyword_text k) ∷ rest → ⊥)
        (λ r. lexemes.now ≡ says.Word (keyword_text r.0) ∷ r.1.now) }
{
    let (first, rest) = lexemes.split_first()?;
    let Lexeme::Word(word) = first else {
        return None;
    };
    let keyword = keyword_of(word.as_slice())?;
    Some((keyword, rest))
}

/// The head with these tokens behind its keyword.
fn head(rest: &[Lexeme]) -> Option<Said>
    ensures { MatchOption result
        ((s : Statement) → says.Word (keyword_text Keyword.Litmus) ∷ rest.now ≡ statement_lexemes s → ⊥)
        (λ said. says.Word (keyword_text Keyword.Litmus) ∷ rest.now ≡ statement_lexemes (statement_of said)) }
{
    match rest {
        [Lexeme::Word(name)] => Some(Said::Head(name, None)),
        [Lexeme::Word(name), Lexeme::Number(Some(version))] => {
            Some(Said::Head(name, Some(*version)))
        }
        _ => None,
    }
}

/// The number that the tokens are, if they are one.
fn number_alone(rest: &[Lexeme]) -> Option<Option<u32>>
    ensures { MatchOption result
        ((n : Option ℕ) → rest.now ≡ says.Number n ∷ [] → ⊥)
        (λ n. rest.now ≡ says.Number n ∷ []) }
{
    match rest {
        [Lexeme::Number(number)] => Some(*number),
        _ => None,
    }
}

/// The block line with these tokens behind its keyword.
fn block(rest: &[Lexeme]) -> Option<Said>
    ensures { MatchOption result
        ((s : Statement) → says.Word (keyword_text Keyword.Block) ∷ rest.now ≡ statement_lexemes s → ⊥)
        (λ said. IsRead (says.Word (keyword_text Keyword.Block) ∷ rest.now) (statement_of said)) }
{
    let size = number_alone(rest)?;
    Some(Said::Block(in_range(size)))
}

/// The sector line with these tokens behind its keyword.
fn sector(rest: &[Lexeme]) -> Option<Said>
    ensures { MatchOption result
        ((s : Statement) → says.Word (keyword_text Keyword.Sector) ∷ rest.now ≡ statement_lexemes s → ⊥)
        (λ said. IsRead (says.Word (keyword_text Keyword.Sector) ∷ rest.now) (statement_of said)) }
{
    let size = number_alone(rest)?;
    Some(Said::Sector(in_range(size)))
}

/// Whether the tokens are a colon.
fn is_colon(rest: &[Lexeme]) -> bool
    ensures { MatchBool result (rest.now ≡ says.Sign 58 ∷ []) (rest.now ≡ says.Sign 58 ∷ [] → ⊥) }
{
    matches!(rest, [Lexeme::Sign(b':')])
}

/// The tokens behind the colon that these begin with.
fn behind_colon(rest: &[Lexeme]) -> Option<&[Lexeme]>
    ensures { MatchOption result
        ((asked : List Lexeme) → rest.now ≡ says.Sign 58 ∷ asked → ⊥)
        (λ asked. rest.now ≡ says.Sign 58 ∷ asked.now) }
{
    match rest.split_first() {
        Some((Lexeme::Sign(b':'), asked)) => Some(asked),
        _ => None,
    }
}

/// The question with these tokens behind its keyword.
fn question(want: bool, rest: &[Lexeme]) -> Option<Said>
    ensures { MatchOption result
        ((asked : List Lexeme) → rest.now ≡ says.Sign 58 ∷ asked → ⊥)
        (λ said. says.Word (question_word want) ∷ rest.now ≡ statement_lexemes (statement_of said)) }
{
    let asked = behind_colon(rest)?;
    Some(Said::Question(want, asked))
}

/// What this keyword and the tokens behind it state, if they state something.
fn statement_behind<'a>(
    alloc: Global,
    name: Keyword,
    rest: &'a [Lexeme],
) -> Result<Option<Said<'a>>, AllocError>
    ensures { IfOk result (λ o. MatchOption o
        ((s : Statement) → says.Word (keyword_text name) ∷ rest.now ≡ statement_lexemes s → ⊥)
        (λ said. IsRead (says.Word (keyword_text name) ∷ rest.now) (statement_of said))) }
{
    match name {
        Keyword::Litmus => Ok(head(rest)),
        Keyword::Block => Ok(block(rest)),
        Keyword::Sector => Ok(sector(rest)),
        Keyword::Setup => Ok(is_colon(rest).then_some(Said::Setup)),
        Keyword::Body => Ok(is_colon(rest).then_some(Said::Body)),
        Keyword::Exists => Ok(question(true, rest)),
        Keyword::Always => Ok(question(false, rest)),
        _ => match call_of(alloc, name, rest)? {
            None => Ok(None),
            Some(call) => Ok(Some(Said::Called(call))),
        },
    }
}

/// What the tokens of a line state, if they state something.
pub fn said_by<'a>(alloc: Global, lexemes: &'a [Lexeme]) -> Result<Option<Said<'a>>, AllocError>
    ensures { IfOk result (λ o. MatchOption o
        ((s : Statement) → lexemes.now ≡ statement_lexemes s → ⊥)
        (λ said. IsRead lexemes.now (statement_of said))) }
{
    let Some((name, rest)) = led(lexemes) else {
        return Ok(None);
    };
    let said = statement_behind(alloc, name, rest)?;
    Ok(said)
}
