ghost use Rattle.std.specs.Prelude.{◌≡◌, ◌==◌, MatchBool};
ghost use Rattle.std.specs.List.{list_all, slice_split};
ghost use Rattle.text_scan.specs.Bytes.{is_digit, is_name_byte};
ghost use Rattle.text_scan.specs.Forms.{is_word, is_number, is_component, is_path, is_one_sign, HasForm};

use crate::bytes::{is_digit, is_first_byte, is_name_byte, is_sign};
use crate::items::is_text;
use crate::scanning::TokenKind;

/// The most bytes of a component.
const MOST_BYTES: usize = 64;

fn are_name_bytes(bytes: &[u8]) -> bool
    ensures { result ≡ list_all is_name_byte bytes.now }
{
    bytes.iter().all(|byte| is_name_byte(*byte))
}

/// A letter or `_`, and then name characters.
fn is_word(bytes: &[u8]) -> bool
    ensures { result ≡ is_word bytes.now }
{
    match bytes.split_first() {
        None => false,
        Some((first, rest)) => is_first_byte(*first) && are_name_bytes(rest),
    }
}

fn are_digits(bytes: &[u8]) -> bool
    ensures { result ≡ list_all is_digit bytes.now }
{
    bytes.iter().all(|byte| is_digit(*byte))
}

/// One or more digits.
fn is_number(bytes: &[u8]) -> bool
    ensures { result ≡ is_number bytes.now }
{
    match bytes.split_first() {
        None => false,
        Some((first, rest)) => is_digit(*first) && are_digits(rest),
    }
}

/// 1 to 64 name characters other than `.` and `..`.
fn is_component(bytes: &[u8]) -> bool
    ensures { result ≡ is_component bytes.now }
{
    if bytes.is_empty() {
        return false;
    }
    if bytes.len() > MOST_BYTES {
        return false;
    }
    if bytes == b".".as_slice() {
        return false;
    }
    if bytes == b"..".as_slice() {
        return false;
    }
    are_name_bytes(bytes)
}

/// Whether all parts between slashes are components.
fn are_components(bytes: &[u8]) -> bool
    ensures { result ≡ list_all is_component (slice_split (λ x. x == 47) bytes.now) }
{
    bytes
        .split(|byte| *byte == b'/')
        .all(|part| is_component(part))
}

/// `/` alone, or one or more times `/` and a component.
fn is_path(bytes: &[u8]) -> bool
    ensures { result ≡ is_path bytes.now }
{
    match bytes.split_first() {
        None => false,
        Some((first, rest)) => {
            if *first != b'/' {
                return false;
            }
            if rest.is_empty() {
                return true;
            }
            are_components(rest)
        }
    }
}

/// One sign.
fn is_one_sign(bytes: &[u8]) -> bool
    ensures { result ≡ is_one_sign bytes.now }
{
    match bytes.split_first() {
        None => false,
        Some((first, rest)) => is_sign(*first) && rest.is_empty(),
    }
}

/// Whether the bytes have the form of this kind of token.
pub fn has_form(kind: TokenKind, bytes: &[u8]) -> bool
    ensures { MatchBool result (HasForm kind bytes.now) (HasForm kind bytes.now → ⊥) }
{
    match kind {
        TokenKind::Word => is_word(bytes),
        TokenKind::Number => is_number(bytes),
        TokenKind::PathToken => is_path(bytes),
        TokenKind::TextToken => is_text(bytes),
        TokenKind::Sign => is_one_sign(bytes),
    }
}
