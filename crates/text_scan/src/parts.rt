ghost use Rattle.std.specs.Prelude.{◌≡◌, ◌≤◌, length, drop, MatchBool, MatchOption};
ghost use Rattle.std.specs.List.{list_any};
ghost use Rattle.text_scan.specs.Texts.{text_len};
ghost use Rattle.text_scan.specs.Comments.{is_bad, IsEnd, IsPart, HasBadByte};

use crate::bytes::is_line_byte;

/// What stands behind the first byte, if there is one.
fn behind_first(bytes: &[u8]) -> &[u8]
    ensures { result.now ≡ drop 1 bytes.now }
{
    match bytes.split_first() {
        None => bytes,
        Some((_, behind)) => behind,
    }
}

/// How many bytes a text takes behind its opening quote: up to and including the closing one, or all.
pub fn text_len_behind(bytes: &[u8]) -> usize
    ensures len { result ≡ text_len bytes.now }
    ensures within { result ≤ length bytes.now }
{
    let mut rest = bytes;
    while let Some((byte, behind)) = rest.split_first() {
        if *byte == b'"' {
            return bytes.len() - behind.len();
        }
        rest = if *byte == b'\\' {
            behind_first(behind)
        } else {
            behind
        };
    }
    bytes.len()
}

/// The first part of a line and what stands behind it, unless a comment begins or nothing is left.
fn first_part(line: &[u8]) -> Option<(&[u8], &[u8])>
    ensures { MatchOption result (IsEnd line.now) (λ r. IsPart line.now r.0.now r.1.now) }
{
    let (first, behind) = line.split_first()?;
    if *first == b'#' {
        return None;
    }
    if *first == b'"' {
        return Some(line.split_at(1 + text_len_behind(behind)));
    }
    Some(line.split_at(1))
}

/// Whether one of the bytes is neither a tab nor from 0x20 to 0x7E.
fn is_any_bad(bytes: &[u8]) -> bool
    ensures { result ≡ list_any is_bad bytes.now }
{
    bytes.iter().any(|byte| !is_line_byte(*byte))
}

/// Whether a byte before the line's comment is neither a tab nor from 0x20 to 0x7E.
pub fn has_bad_byte(line: &[u8]) -> bool
    ensures { MatchBool result (HasBadByte line.now) (HasBadByte line.now → ⊥) }
{
    let mut rest = line;
    while let Some((part, behind)) = first_part(rest) {
        if is_any_bad(part) {
            return true;
        }
        rest = behind;
    }
    false
}
