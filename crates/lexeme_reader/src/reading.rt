ghost use Rattle.std.specs.Prelude.{◌≡◌, ◌<◌, ◌≤◌, ◌==◌, [], ◌∷◌, length, All, IfOk, IfErr, IsTrue, MatchOption};
ghost use Rattle.std.specs.List.{slice_split};
ghost use Rattle.text_scan.specs.Forms.{is_number, is_path, components, HasForm};
ghost use Rattle.text_scan.specs.Faults.{IsFault};
ghost use Rattle.text_scan.specs.Tokens.{token_text};
ghost use Rattle.lexeme_reader.specs.Lexemes.{digits_value, narrowed, Says, AreSaid, AreLexemes, is_formed};

use fer_list::Seq;
use litmus_syntax::{Path, Text};
use std::alloc::{AllocError, Global};
use text_scan::{ScanError, Token, TokenKind, tokens, unescape};

/// The least number that is too wide.
const WIDE: u64 = 1 << 32;

/// What a token says.
#[derive(Debug, Drop)]
pub enum Lexeme {
    Word(Text),
    /// The value of a number, or `None` where it is wider than 32 bits.
    Number(Option<u32>),
    Path(Path),
    /// The bytes that a text stands for.
    Text(Text),
    Sign(u8),
}

/// The number that the digits write, unless it is wider than 32 bits.
fn number_value(digits: &[u8]) -> Option<u32>
    requires { IsTrue (is_number digits.now) }
    ensures { result ≡ narrowed (digits_value digits.now) }
{
    let mut value = 0;
    for digit in digits {
        let next = 10 * value + u64::from(*digit - b'0');
        value = next.min(WIDE);
    }
    u32::try_from(value).ok()
}

/// The first name of some that stand between slashes, and what stands behind the slash that ends it. Nothing where
/// there is no slash.
#[tactic(auto, using(crate::proofs::Names::parts_none))]
fn first_name(names: &[u8]) -> Option<(&[u8], &[u8])>
    ensures { MatchOption result
        (slice_split (λ b. b == 47) names.now ≡ names.now ∷ [])
        (λ r. (slice_split (λ b. b == 47) names.now ≡ r.0.now ∷ slice_split (λ b. b == 47) r.1.now) × (length r.1.now < length names.now)) }
{
    for (i, byte) in names.iter().enumerate() {
        if *byte == b'/' {
            let (name, _) = names.split_at(i);
            let (_, behind) = names.split_at(i + 1);
            return Some((name, behind));
        }
    }
    None
}

/// The names between slashes.
fn names_of(alloc: Global, names: &[u8]) -> Result<Path, AllocError>
    ensures { IfOk result (λ path. path ≡ slice_split (λ b. b == 47) names.now) }
{
    let mut path = Seq::new(alloc);
    let mut rest = names;
    while let Some((name, behind)) = first_name(rest) {
        path.push(Seq::from_slice(alloc, name)?)?;
        rest = behind;
    }
    path.push(Seq::from_slice(alloc, rest)?)?;
    Ok(path)
}

/// The path that a token is.
fn path_of(alloc: Global, token: &[u8]) -> Result<Path, AllocError>
    requires { IsTrue (is_path token.now) }
    ensures { IfOk result (λ path. path ≡ components token.now) }
{
    match token.split_first() {
        Some((_, names)) if !names.is_empty() => {
            let path = names_of(alloc, names)?;
            Ok(path)
        }
        _ => Ok(Seq::new(alloc)),
    }
}

/// What a token of this kind and with these bytes says.
fn lexeme_of(alloc: Global, kind: TokenKind, token: &[u8]) -> Result<Lexeme, AllocError>
    requires { HasForm kind token.now }
    ensures { IfOk result (λ lexeme. Says kind token.now lexeme) }
{
    match kind {
        TokenKind::Word => Ok(Lexeme::Word(Seq::from_slice(alloc, token)?)),
        TokenKind::Number => Ok(Lexeme::Number(number_value(token))),
        TokenKind::PathToken => Ok(Lexeme::Path(path_of(alloc, token)?)),
        TokenKind::TextToken => Ok(Lexeme::Text(Seq::from_vec(unescape(alloc, token)?))),
        TokenKind::Sign => Ok(Lexeme::Sign(token[0])),
    }
}

/// What the tokens of a line say.
fn all_lexemes(alloc: Global, line: &[u8], tokens: &[Token]) -> Result<Vec<Lexeme>, AllocError>
    requires of_the_line { All (λ t. HasForm t.kind (token_text line.now t)) tokens.now }
    requires within { All (λ t. (t.start < t.end) × (t.end ≤ length line.now)) tokens.now }
    ensures { IfOk result (λ lexemes. AreSaid line.now tokens.now lexemes.items) }
{
    let mut lexemes = Vec::new(alloc);
    for token in tokens {
        let said = lexeme_of(alloc, token.kind, &line[token.start..token.end])?;
        lexemes.push(said)?;
    }
    Ok(lexemes)
}

/// What a line says, or why it has no tokens.
pub fn lexemes(alloc: Global, line: &[u8]) -> Result<Vec<Lexeme>, ScanError>
    ensures said { IfOk result (λ lexemes. AreLexemes line.now lexemes.items) }
    ensures formed { IfOk result (λ lexemes. All (λ l. IsTrue (is_formed l)) lexemes.items) }
    ensures fault { IfErr result (λ error. IsFault line.now error) }
{
    let tokens = tokens(alloc, line)?;
    match all_lexemes(alloc, line, tokens.as_slice()) {
        Err(_) => Err(ScanError::OutOfMemory),
        Ok(lexemes) => Ok(lexemes),
    }
}
