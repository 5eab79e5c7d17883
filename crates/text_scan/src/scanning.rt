ghost use Rattle.std.specs.Prelude.{◌≡◌, ◌≢◌, ◌<◌, ◌≤◌, length, drop, Some, slice_index, All, IfOk, IfErr, MatchResult, MatchOption};
ghost use Rattle.text_scan.specs.Comments.{HasBadByte};
ghost use Rattle.text_scan.specs.Faults.{IsBad, IsBadNext, IsFault};
ghost use Rattle.text_scan.specs.Kinds.{kind_of, len_behind};
ghost use Rattle.text_scan.specs.Tokens.{IsToken, IsNext, IsLast, IsTokens};

use crate::bytes::{blanks_len, is_digit, is_first_byte, is_sign, name_len, path_len};
use crate::forms::has_form;
use crate::parts::{has_bad_byte, text_len_behind};
use std::alloc::{AllocFailed, Global};
use thiserror::Error;

/// What a token is.
#[derive(Clone, Copy, Debug, PartialEq, Eq)]
pub enum TokenKind {
    /// A letter or `_`, and then name characters.
    Word,
    /// Digits.
    Number,
    /// `/` alone, or one or more times `/` and a component.
    PathToken,
    /// A text in its quotes.
    TextToken,
    /// One of `(` `)` `[` `]` `=` `:` `,` `|` `&` `;` `+`.
    Sign,
}

/// A token: its kind, and the bytes of its line from `start` to `end`.
#[derive(Clone, Copy, Debug)]
pub struct Token {
    pub kind: TokenKind,
    pub start: usize,
    pub end: usize,
}

/// Why a line has no tokens.
#[derive(Clone, Copy, Debug, PartialEq, Eq, Error)]
pub enum ScanError {
    /// A byte that stands before the line's comment, in a text or not, is neither a tab nor from 0x20 to 0x7E.
    #[error("a byte that may not stand in a line")]
    BadByte,
    /// There is no bad byte, and some token doesn't have the form of its kind, or a byte begins no token.
    #[error("something that is no token")]
    BadToken,
    /// Memory was refused.
    #[error("out of memory")]
    OutOfMemory,
}

impl<T: Drop> From<AllocFailed<T>> for ScanError {
    ghost use Rattle.text_scan.specs.declared.scanning.ScanError.TheVariants.{OutOfMemory};

    ghost from_gives = { λ _ error. error ≡ OutOfMemory };

    fn from(_refused: AllocFailed<T>) -> ScanError {
        ScanError::OutOfMemory
    }
}

/// The kind of the token that begins with this byte, if one does.
fn kind_of(byte: u8) -> Option<TokenKind>
    ensures { result ≡ kind_of byte }
{
    if is_first_byte(byte) {
        return Some(TokenKind::Word);
    }
    if is_digit(byte) {
        return Some(TokenKind::Number);
    }
    if byte == b'/' {
        return Some(TokenKind::PathToken);
    }
    if byte == b'"' {
        return Some(TokenKind::TextToken);
    }
    if is_sign(byte) {
        return Some(TokenKind::Sign);
    }
    None
}

/// How many bytes a token of this kind takes behind its first one.
fn len_behind(kind: TokenKind, behind: &[u8]) -> usize
    ensures len { result ≡ len_behind (Some kind) behind.now }
    ensures within { result ≤ length behind.now }
{
    match kind {
        TokenKind::Word | TokenKind::Number => name_len(behind),
        TokenKind::PathToken => path_len(behind),
        TokenKind::TextToken => text_len_behind(behind),
        TokenKind::Sign => 0,
    }
}

/// The token that begins at `start`, where neither a blank nor a comment stands.
fn token_at(line: &[u8], start: usize) -> Option<Token>
    requires within { start < length line.now }
    requires no_comment { slice_index line.now start ≢ 35 }
    ensures { MatchOption result (IsBad (drop start line.now)) (λ token. (token.start ≡ start) × IsToken line.now token) }
{
    let (_, front) = line.split_at(start);
    let (first, behind) = front.split_first()?;
    let kind = kind_of(*first)?;
    let end = start + 1 + len_behind(kind, behind);
    if !has_form(kind, &line[start..end]) {
        return None;
    }
    Some(Token { kind, start, end })
}

/// The next token from this place on, if one follows.
fn next_token(line: &[u8], place: usize) -> Result<Option<Token>, ScanError>
    requires { place ≤ length line.now }
    ensures { MatchResult result
        (λ next. MatchOption next (IsLast line.now place) (λ token. IsNext line.now place token))
        (λ error. (error ≡ ScanError.BadToken) × IsBadNext line.now place) }
{
    let (_, rest) = line.split_at(place);
    let start = place + blanks_len(rest);
    if start == line.len() {
        return Ok(None);
    }
    if line[start] == b'#' {
        return Ok(None);
    }
    match token_at(line, start) {
        None => Err(ScanError::BadToken),
        Some(token) => Ok(Some(token)),
    }
}

/// The tokens of a line that has no bad byte.
fn tokens_of_clean(alloc: Global, line: &[u8]) -> Result<Vec<Token>, ScanError>
    requires { HasBadByte line.now → ⊥ }
    ensures tokens { IfOk result (λ tokens. IsTokens line.now tokens.items) }
    ensures within { IfOk result (λ tokens. All (λ t. (t.start < t.end) × (t.end ≤ length line.now)) tokens.items) }
    ensures fault { IfErr result (λ error. IsFault line.now error) }
{
    let mut tokens = Vec::new(alloc);
    let mut place = 0;
    while let Some(token) = next_token(line, place)? {
        tokens.push(token)?;
        place = token.end;
    }
    Ok(tokens)
}

/// The tokens of a line, which has no line feed at its end. They ascend, and don't overlap.
/// `BadByte` and `BadToken` say what keeps the line from having tokens.
pub fn tokens(alloc: Global, line: &[u8]) -> Result<Vec<Token>, ScanError>
    ensures tokens { IfOk result (λ tokens. IsTokens line.now tokens.items) }
    ensures within { IfOk result (λ tokens. All (λ t. (t.start < t.end) × (t.end ≤ length line.now)) tokens.items) }
    ensures fault { IfErr result (λ error. IsFault line.now error) }
{
    if has_bad_byte(line) {
        return Err(ScanError::BadByte);
    }
    let tokens = tokens_of_clean(alloc, line)?;
    Ok(tokens)
}
