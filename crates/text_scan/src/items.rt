ghost use Rattle.std.specs.Prelude.{◌≡◌, ℕ, ◌+◌, ◌*◌, ◌<◌, [], ◌∷◌, ◌++◌, List, IsTrue, MatchBool, MatchOption, IfOk};
ghost use Rattle.text_scan.specs.Bytes.{is_hex_digit};
ghost use Rattle.text_scan.specs.Items.{is_plain, escaped, hex_value, IsItem, Spells, IsText, IsTextOf};

use crate::bytes::{is_hex_digit, is_line_byte};
use std::alloc::{AllocError, Global};

/// An item at the front of some bytes: the byte that it stands for, and what stands behind it.
#[derive(Clone, Copy, Debug)]
struct Item<'a> {
    byte: u8,
    rest: &'a [u8],
}

/// Whether the byte stands for itself in a text.
fn is_plain(byte: u8) -> bool
    ensures { result ≡ is_plain byte }
{
    is_line_byte(byte) && byte != b'"' && byte != b'\\'
}

/// What this byte stands for behind a backslash.
fn escaped(byte: u8) -> Option<u8>
    ensures { result ≡ escaped byte }
{
    match byte {
        b'\\' => Some(b'\\'),
        b'"' => Some(b'"'),
        b'n' => Some(b'\n'),
        _ => None,
    }
}

/// The value of a hexadecimal digit of either case.
fn hex_value(digit: u8) -> u8
    requires { IsTrue (is_hex_digit digit) }
    ensures value { result ≡ hex_value digit }
    ensures small { result < 16 }
{
    match digit {
        b'0'..=b'9' => digit - b'0',
        b'A'..=b'F' => digit - b'A' + 10,
        _ => digit - b'a' + 10,
    }
}

/// The byte that these two digits write, and what stands behind them.
fn hex_item(digits: &[u8]) -> Option<Item<'_>>
    ensures { MatchOption result
        ((a b : ℕ) (rest : List ℕ) → digits.now ≡ a ∷ b ∷ rest → IsTrue (is_hex_digit a) → IsTrue (is_hex_digit b) → ⊥)
        (λ r. (a b : ℕ) × (digits.now ≡ a ∷ b ∷ r.rest.now) × IsTrue (is_hex_digit a) × IsTrue (is_hex_digit b)
        × (r.byte ≡ 16 * hex_value a + hex_value b)) }
{
    let (high, behind) = digits.split_first()?;
    let (low, rest) = behind.split_first()?;
    if !is_hex_digit(*high) || !is_hex_digit(*low) {
        return None;
    }
    Some(Item {
        byte: 16 * hex_value(*high) + hex_value(*low),
        rest,
    })
}

/// The item at the front.
fn first_item(bytes: &[u8]) -> Option<Item<'_>>
    ensures { MatchOption result
        ((item rest : List ℕ) (byte : ℕ) → bytes.now ≡ item ++ rest → IsItem item byte → ⊥)
        (λ r. (item : List ℕ) × (bytes.now ≡ item ++ r.rest.now) × IsItem item r.byte) }
{
    let (first, behind) = bytes.split_first()?;
    if is_plain(*first) {
        return Some(Item {
            byte: *first,
            rest: behind,
        });
    }
    if *first != b'\\' {
        return None;
    }
    let (second, rest) = behind.split_first()?;
    if *second == b'x' {
        return hex_item(rest);
    }
    let byte = escaped(*second)?;
    Some(Item { byte, rest })
}

/// Whether the closing quote stands here, and nothing behind it.
fn is_quote(bytes: &[u8]) -> bool
    ensures { MatchBool result (bytes.now ≡ 34 ∷ []) (bytes.now ≡ 34 ∷ [] → ⊥) }
{
    bytes == b"\"".as_slice()
}

/// Whether the bytes are items and then a closing quote.
fn is_spelled(written: &[u8]) -> bool
    ensures { MatchBool result
        ((bytes : List ℕ) × Spells written.now bytes)
        ((bytes : List ℕ) → Spells written.now bytes → ⊥) }
{
    let mut rest = written;
    while let Some(item) = first_item(rest) {
        rest = item.rest;
    }
    is_quote(rest)
}

/// Whether the bytes are a text in its quotes.
pub fn is_text(bytes: &[u8]) -> bool
    ensures { MatchBool result (IsText bytes.now) (IsText bytes.now → ⊥) }
{
    match bytes.split_first() {
        Some((b'"', written)) => is_spelled(written),
        _ => false,
    }
}

/// The bytes that a text stands for, its escapes read. `token` is a text in its quotes, as `tokens` gives it.
pub fn unescape(alloc: Global, token: &[u8]) -> Result<Vec<u8>, AllocError>
    requires { IsText token.now }
    ensures { IfOk result (λ bytes. IsTextOf token.now bytes.items) }
{
    let mut bytes = Vec::new(alloc);
    let (_, mut rest) = token.split_at(1);
    while let Some(item) = first_item(rest) {
        bytes.push(item.byte)?;
        rest = item.rest;
    }
    Ok(bytes)
}
