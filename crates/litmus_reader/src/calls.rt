ghost use Rattle.std.specs.Prelude.{◌≡◌, ℕ, ◌^◌, ◌<◌, ◌∷◌, [], Some, IfOk, MatchOption};
ghost use Rattle.litmus_syntax.specs.declared.call.Call.{Call};
ghost use Rattle.lexeme_reader.specs.declared.reading.Lexeme.TheVariants as says;
ghost use Rattle.litmus_reader.specs.Keywords.{keyword_text};
ghost use Rattle.litmus_reader.specs.Statements.{call_lexemes};
ghost use Rattle.litmus_reader.specs.Read.{IsCallRead};

use crate::keywords::Keyword;
use lexeme_reader::Lexeme;
use litmus_syntax::{Call, Path, Text, copy_path, copy_text};
use std::alloc::{AllocError, Global};

/// The number, if it is in range; a line with any other number is refused before its numbers are used.
pub fn in_range(number: Option<u32>) -> u32
    ensures { (n : ℕ) → number ≡ Some n → (result ≡ n) × (n < 2 ^ 32) }
{
    number.unwrap_or(0)
}

/// The call of this name on nothing.
fn call_alone(name: Keyword) -> Option<Call>
    ensures { MatchOption result
        ((c : Call) → says.Word (keyword_text name) ∷ [] ≡ call_lexemes c → ⊥)
        (λ c. says.Word (keyword_text name) ∷ [] ≡ call_lexemes c) }
{
    match name {
        Keyword::Sync => Some(Call::Sync),
        Keyword::Begin => Some(Call::Begin),
        Keyword::Commit => Some(Call::Commit),
        _ => None,
    }
}

/// The call of this name on a word.
fn call_on_word(name: Keyword, word: Text) -> Option<Call>
    ensures { MatchOption result
        ((c : Call) → says.Word (keyword_text name) ∷ says.Word word ∷ [] ≡ call_lexemes c → ⊥)
        (λ c. says.Word (keyword_text name) ∷ says.Word word ∷ [] ≡ call_lexemes c) }
{
    match name {
        Keyword::Mark => Some(Call::Mark { word }),
        _ => None,
    }
}

/// The call of this name on a path.
fn call_on_path(name: Keyword, path: Path) -> Option<Call>
    ensures { MatchOption result
        ((c : Call) → says.Word (keyword_text name) ∷ says.Path path ∷ [] ≡ call_lexemes c → ⊥)
        (λ c. says.Word (keyword_text name) ∷ says.Path path ∷ [] ≡ call_lexemes c) }
{
    match name {
        Keyword::Mkdir => Some(Call::Mkdir { path }),
        Keyword::Create => Some(Call::Create { path }),
        Keyword::Unlink => Some(Call::Unlink { path }),
        Keyword::Fsync => Some(Call::Fsync { path }),
        Keyword::FsyncDir => Some(Call::FsyncDir { path }),
        _ => None,
    }
}

/// The call of this name on two paths.
fn call_on_paths(name: Keyword, from: Path, to: Path) -> Option<Call>
    ensures { MatchOption result
        ((c : Call) → says.Word (keyword_text name) ∷ says.Path from ∷ says.Path to ∷ [] ≡ call_lexemes c → ⊥)
        (λ c. says.Word (keyword_text name) ∷ says.Path from ∷ says.Path to ∷ [] ≡ call_lexemes c) }
{
    match name {
        Keyword::Link => Some(Call::Link { from, to }),
        Keyword::Rename => Some(Call::Rename { from, to }),
        _ => None,
    }
}

/// The call of this name on a path and a text.
fn call_on_text(name: Keyword, path: Path, text: Text) -> Option<Call>
    ensures { MatchOption result
        ((c : Call) → says.Word (keyword_text name) ∷ says.Path path ∷ says.Text text ∷ [] ≡ call_lexemes c → ⊥)
        (λ c. says.Word (keyword_text name) ∷ says.Path path ∷ says.Text text ∷ [] ≡ call_lexemes c) }
{
    match name {
        Keyword::Append => Some(Call::Append { path, text }),
        _ => None,
    }
}

/// The call of this name on a path and a number.
fn call_on_number(name: Keyword, path: Path, number: Option<u32>) -> Option<Call>
    ensures { MatchOption result
        ((c : Call) → says.Word (keyword_text name) ∷ says.Path path ∷ says.Number number ∷ [] ≡ call_lexemes c → ⊥)
        (λ c. IsCallRead (says.Word (keyword_text name) ∷ says.Path path ∷ says.Number number ∷ []) c) }
{
    match name {
        Keyword::Truncate => Some(Call::Truncate {
            path,
            size: in_range(number),
        }),
        _ => None,
    }
}

/// The call of this name on a path, a number and a text.
fn call_on_place(name: Keyword, path: Path, number: Option<u32>, text: Text) -> Option<Call>
    ensures { MatchOption result
        ((c : Call) → says.Word (keyword_text name) ∷ says.Path path ∷ says.Number number ∷ says.Text text ∷ [] ≡ call_lexemes c → ⊥)
        (λ c. IsCallRead (says.Word (keyword_text name) ∷ says.Path path ∷ says.Number number ∷ says.Text text ∷ []) c) }
{
    match name {
        Keyword::Write => Some(Call::Write {
            path,
            at: in_range(number),
            text,
        }),
        _ => None,
    }
}

/// The call of this name on a path, a word and a number.
fn call_on_key(name: Keyword, path: Path, key: Text, number: Option<u32>) -> Option<Call>
    ensures { MatchOption result
        ((c : Call) → says.Word (keyword_text name) ∷ says.Path path ∷ says.Word key ∷ says.Number number ∷ [] ≡ call_lexemes c → ⊥)
        (λ c. IsCallRead (says.Word (keyword_text name) ∷ says.Path path ∷ says.Word key ∷ says.Number number ∷ []) c) }
{
    match name {
        Keyword::Attr => Some(Call::Attr {
            path,
            key,
            value: in_range(number),
        }),
        _ => None,
    }
}

/// The call that this name, a path and the tokens behind it are, if they are one.
fn call_behind_path(
    alloc: Global,
    name: Keyword,
    path: Path,
    behind: &[Lexeme],
) -> Result<Option<Call>, AllocError>
    ensures { IfOk result (λ o. MatchOption o
        ((c : Call) → says.Word (keyword_text name) ∷ says.Path path ∷ behind.now ≡ call_lexemes c → ⊥)
        (λ c. IsCallRead (says.Word (keyword_text name) ∷ says.Path path ∷ behind.now) c)) }
{
    match behind {
        [] => Ok(call_on_path(name, path)),
        [Lexeme::Path(to)] => Ok(call_on_paths(name, path, copy_path(alloc, to.as_slice())?)),
        [Lexeme::Text(text)] => Ok(call_on_text(name, path, copy_text(alloc, text.as_slice())?)),
        [Lexeme::Number(number)] => Ok(call_on_number(name, path, *number)),
        [Lexeme::Number(number), Lexeme::Text(text)] => Ok(call_on_place(
            name,
            path,
            *number,
            copy_text(alloc, text.as_slice())?,
        )),
        [Lexeme::Word(key), Lexeme::Number(number)] => Ok(call_on_key(
            name,
            path,
            copy_text(alloc, key.as_slice())?,
            *number,
        )),
        _ => Ok(None),
    }
}

/// The call that this name and the tokens behind it are, if they are one.
pub fn call_of(
    alloc: Global,
    name: Keyword,
    operands: &[Lexeme],
) -> Result<Option<Call>, AllocError>
    ensures { IfOk result (λ o. MatchOption o
        ((c : Call) → says.Word (keyword_text name) ∷ operands.now ≡ call_lexemes c → ⊥)
        (λ c. IsCallRead (says.Word (keyword_text name) ∷ operands.now) c)) }
{
    let Some((first, behind)) = operands.split_first() else {
        return Ok(call_alone(name));
    };
    match first {
        Lexeme::Word(word) if behind.is_empty() => {
            Ok(call_on_word(name, copy_text(alloc, word.as_slice())?))
        }
        Lexeme::Path(path) => {
            let path = copy_path(alloc, path.as_slice())?;
            let call = call_behind_path(alloc, name, path, behind)?;
            Ok(call)
        }
        _ => Ok(None),
    }
}
