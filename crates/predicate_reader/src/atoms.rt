ghost use Rattle.std.specs.Prelude.{◌≡◌, ◌+◌, ◌≤◌, List, IfOk, MatchOption, MatchBool};
ghost use Rattle.litmus_syntax.specs.declared.pred.Pred.{Pred};
ghost use Rattle.lexeme_reader.specs.declared.reading.Lexeme.{Lexeme};
ghost use Rattle.predicate_reader.specs.declared.atoms.AtomName.{AtomName};
ghost use Rattle.predicate_reader.specs.AtomNames.{atom_text};
ghost use Rattle.predicate_reader.specs.declared.atoms.AtomName.TheVariants as name;
ghost use Rattle.predicate_reader.specs.AtomFronts.{CompletesAtom, BeginsAtom};

use crate::tokens::{
    behind_equals, behind_sign, number_at, open_path_at, path_at, text_at, word_at,
};
use lexeme_reader::Lexeme;
use litmus_syntax::{MOST_FILE_BYTES, Pred, copy_path, copy_text};
use std::alloc::{AllocError, Global};

/// The words that an atom begins with, or is.
#[derive(Clone, Copy, Debug, PartialEq, Eq)]
pub enum AtomName {
    True,
    False,
    Exists,
    Same,
    Size,
    Content,
    Bytes,
    Attr,
    Seen,
}

/// The atom's name that this word is.
pub fn atom_name(word: &[u8]) -> Option<AtomName>
    ensures { MatchOption result ((n : AtomName) → word.now ≡ atom_text n → ⊥) (λ n. word.now ≡ atom_text n) }
{
    match word {
        b"true" => Some(AtomName::True),
        b"false" => Some(AtomName::False),
        b"exists" => Some(AtomName::Exists),
        b"same" => Some(AtomName::Same),
        b"size" => Some(AtomName::Size),
        b"content" => Some(AtomName::Content),
        b"bytes" => Some(AtomName::Bytes),
        b"attr" => Some(AtomName::Attr),
        b"seen" => Some(AtomName::Seen),
        _ => None,
    }
}

/// Whether a range of a file ends early enough.
fn ends_early(at: u32, len: usize) -> bool
    ensures { MatchBool result (at + len ≤ 65536) (at + len ≤ 65536 → ⊥) }
{
    if len > MOST_FILE_BYTES {
        return false;
    }
    at as usize <= MOST_FILE_BYTES - len
}

/// What follows the word `exists`, and the tokens behind it.
fn exists_at(alloc: Global, lexemes: &[Lexeme]) -> Result<Option<(Pred, &[Lexeme])>, AllocError>
    ensures { IfOk result (λ o. MatchOption o
        ((p : Pred) (rest : List Lexeme) → CompletesAtom name.Exists lexemes.now p rest → ⊥)
        (λ found. CompletesAtom name.Exists lexemes.now found.0 found.1.now)) }
{
    let Some((path, behind)) = open_path_at(lexemes) else {
        return Ok(None);
    };
    let Some(rest) = behind_sign(behind, b')') else {
        return Ok(None);
    };
    let path = copy_path(alloc, path.as_slice())?;
    Ok(Some((Pred::Exists { path }, rest)))
}

/// What follows the word `same`, and the tokens behind it.
fn same_at(alloc: Global, lexemes: &[Lexeme]) -> Result<Option<(Pred, &[Lexeme])>, AllocError>
    ensures { IfOk result (λ o. MatchOption o
        ((p : Pred) (rest : List Lexeme) → CompletesAtom name.Same lexemes.now p rest → ⊥)
        (λ found. CompletesAtom name.Same lexemes.now found.0 found.1.now)) }
{
    let Some((left, behind)) = open_path_at(lexemes) else {
        return Ok(None);
    };
    let Some(behind) = behind_sign(behind, b',') else {
        return Ok(None);
    };
    let Some((right, behind)) = path_at(behind) else {
        return Ok(None);
    };
    let Some(rest) = behind_sign(behind, b')') else {
        return Ok(None);
    };
    let left = copy_path(alloc, left.as_slice())?;
    let right = copy_path(alloc, right.as_slice())?;
    Ok(Some((Pred::Same { left, right }, rest)))
}

/// What follows the word `size`, and the tokens behind it.
fn size_at(alloc: Global, lexemes: &[Lexeme]) -> Result<Option<(Pred, &[Lexeme])>, AllocError>
    ensures { IfOk result (λ o. MatchOption o
        ((p : Pred) (rest : List Lexeme) → CompletesAtom name.Size lexemes.now p rest → ⊥)
        (λ found. CompletesAtom name.Size lexemes.now found.0 found.1.now)) }
{
    let Some((path, behind)) = open_path_at(lexemes) else {
        return Ok(None);
    };
    let Some(behind) = behind_equals(behind) else {
        return Ok(None);
    };
    let Some((size, rest)) = number_at(behind) else {
        return Ok(None);
    };
    let path = copy_path(alloc, path.as_slice())?;
    Ok(Some((Pred::SizeIs { path, size }, rest)))
}

/// What follows the word `content`, and the tokens behind it.
fn content_at(alloc: Global, lexemes: &[Lexeme]) -> Result<Option<(Pred, &[Lexeme])>, AllocError>
    ensures { IfOk result (λ o. MatchOption o
        ((p : Pred) (rest : List Lexeme) → CompletesAtom name.Content lexemes.now p rest → ⊥)
        (λ found. CompletesAtom name.Content lexemes.now found.0 found.1.now)) }
{
    let Some((path, behind)) = open_path_at(lexemes) else {
        return Ok(None);
    };
    let Some(behind) = behind_equals(behind) else {
        return Ok(None);
    };
    let Some((text, rest)) = text_at(behind) else {
        return Ok(None);
    };
    let path = copy_path(alloc, path.as_slice())?;
    let text = copy_text(alloc, text.as_slice())?;
    Ok(Some((Pred::ContentIs { path, text }, rest)))
}

/// What follows the word `bytes`, and the tokens behind it.
fn bytes_at(alloc: Global, lexemes: &[Lexeme]) -> Result<Option<(Pred, &[Lexeme])>, AllocError>
    ensures { IfOk result (λ o. MatchOption o
        ((p : Pred) (rest : List Lexeme) → CompletesAtom name.Bytes lexemes.now p rest → ⊥)
        (λ found. CompletesAtom name.Bytes lexemes.now found.0 found.1.now)) }
{
    let Some((path, behind)) = open_path_at(lexemes) else {
        return Ok(None);
    };
    let Some(behind) = behind_sign(behind, b',') else {
        return Ok(None);
    };
    let Some((at, behind)) = number_at(behind) else {
        return Ok(None);
    };
    let Some(behind) = behind_equals(behind) else {
        return Ok(None);
    };
    let Some((text, rest)) = text_at(behind) else {
        return Ok(None);
    };
    if !ends_early(at, text.len()) {
        return Ok(None);
    }
    let path = copy_path(alloc, path.as_slice())?;
    let text = copy_text(alloc, text.as_slice())?;
    Ok(Some((Pred::BytesAre { path, at, text }, rest)))
}

/// What follows the word `attr`, and the tokens behind it.
fn attr_at(alloc: Global, lexemes: &[Lexeme]) -> Result<Option<(Pred, &[Lexeme])>, AllocError>
    ensures { IfOk result (λ o. MatchOption o
        ((p : Pred) (rest : List Lexeme) → CompletesAtom name.Attr lexemes.now p rest → ⊥)
        (λ found. CompletesAtom name.Attr lexemes.now found.0 found.1.now)) }
{
    let Some((path, behind)) = open_path_at(lexemes) else {
        return Ok(None);
    };
    let Some(behind) = behind_sign(behind, b',') else {
        return Ok(None);
    };
    let Some((key, behind)) = word_at(behind) else {
        return Ok(None);
    };
    let Some(behind) = behind_equals(behind) else {
        return Ok(None);
    };
    let Some((value, rest)) = number_at(behind) else {
        return Ok(None);
    };
    let path = copy_path(alloc, path.as_slice())?;
    let key = copy_text(alloc, key.as_slice())?;
    Ok(Some((Pred::AttrIs { path, key, value }, rest)))
}

/// What follows the word `seen`, and the tokens behind it.
fn seen_at(alloc: Global, lexemes: &[Lexeme]) -> Result<Option<(Pred, &[Lexeme])>, AllocError>
    ensures { IfOk result (λ o. MatchOption o
        ((p : Pred) (rest : List Lexeme) → CompletesAtom name.Seen lexemes.now p rest → ⊥)
        (λ found. CompletesAtom name.Seen lexemes.now found.0 found.1.now)) }
{
    let Some(behind) = behind_sign(lexemes, b'(') else {
        return Ok(None);
    };
    let Some((word, behind)) = word_at(behind) else {
        return Ok(None);
    };
    let Some(rest) = behind_sign(behind, b')') else {
        return Ok(None);
    };
    let word = copy_text(alloc, word.as_slice())?;
    Ok(Some((Pred::Seen { word }, rest)))
}

/// The atom of this name of which the tokens begin with the rest, and the tokens behind it.
fn atom_behind(
    alloc: Global,
    name: AtomName,
    lexemes: &[Lexeme],
) -> Result<Option<(Pred, &[Lexeme])>, AllocError>
    ensures { IfOk result (λ o. MatchOption o
        ((p : Pred) (rest : List Lexeme) → CompletesAtom name lexemes.now p rest → ⊥)
        (λ found. CompletesAtom name lexemes.now found.0 found.1.now)) }
{
    match name {
        AtomName::True => Ok(Some((Pred::True, lexemes))),
        AtomName::False => Ok(Some((Pred::False, lexemes))),
        AtomName::Exists => Ok(exists_at(alloc, lexemes)?),
        AtomName::Same => Ok(same_at(alloc, lexemes)?),
        AtomName::Size => Ok(size_at(alloc, lexemes)?),
        AtomName::Content => Ok(content_at(alloc, lexemes)?),
        AtomName::Bytes => Ok(bytes_at(alloc, lexemes)?),
        AtomName::Attr => Ok(attr_at(alloc, lexemes)?),
        AtomName::Seen => Ok(seen_at(alloc, lexemes)?),
    }
}

/// The atom at the front, and the tokens behind it.
pub fn atom_at(alloc: Global, lexemes: &[Lexeme]) -> Result<Option<(Pred, &[Lexeme])>, AllocError>
    ensures { IfOk result (λ o. MatchOption o
        ((p : Pred) (rest : List Lexeme) → BeginsAtom lexemes.now p rest → ⊥)
        (λ found. BeginsAtom lexemes.now found.0 found.1.now)) }
{
    let Some((word, behind)) = word_at(lexemes) else {
        return Ok(None);
    };
    let Some(name) = atom_name(word.as_slice()) else {
        return Ok(None);
    };
    let found = atom_behind(alloc, name, behind)?;
    Ok(found)
}
