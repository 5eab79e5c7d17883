ghost use Rattle.std.specs.Prelude.{◌≡◌, ◌≢◌, ◌⊎◌, ℕ, not, [], ◌∷◌, ◌++◌, ◌≤◌, List, IfOk, OnOk, IsErrOf, MatchOption, length, position, codes};
ghost use Rattle.text_scan.specs.Lines.{lines_of};
ghost use Rattle.fer_events.specs.declared.event.Crash.{Crash as CrashOf};
ghost use Rattle.witness_replay.specs.declared.judgement.CrashFault.TheVariants.{BadText};
ghost use Rattle.witness_replay.specs.CrashFiles.{IsCrashLine, IsLineOf, IsCrashText};
ghost use Rattle.numerals.specs.Spans.{IsSpan};
ghost use Rattle.witness_replay.specs.Spans.{is_space, BeginsNumber, BeginsNumbers, BeginsBar};

use crate::judgement::CrashFault;
use fer_events::Crash;
use fer_list::Seq;
use numerals::{number_of, split_digits};
use std::alloc::{AllocError, Global};
use text_scan::first_line;

/// The most bytes of a crash file.
pub const MOST_CRASH_BYTES: usize = 4096;

/// The place of the first byte that is no space.
fn first_no_space(bytes: &[u8]) -> Option<usize>
    ensures { result ≡ position (λ b. not (is_space b)) bytes.now }
{
    bytes.iter().position(|byte| *byte != b' ')
}

/// The spaces at the front, and what stands behind them.
fn split_spaces(bytes: &[u8]) -> (&[u8], &[u8])
    ensures { IsSpan is_space bytes.now result.0.now result.1.now }
{
    bytes.split_at(first_no_space(bytes).unwrap_or(bytes.len()))
}

/// The number that stands behind spaces at the front, and what stands behind it.
fn next_number(bytes: &[u8]) -> Option<(u32, &[u8])>
    ensures { MatchOption result
        ((n : ℕ) (rest : List ℕ) → BeginsNumber bytes.now n rest → ⊥)
        (λ r. BeginsNumber bytes.now r.0 r.1.now) }
{
    let (spaces, behind) = split_spaces(bytes);
    if spaces.is_empty() {
        return None;
    }
    let (digits, rest) = split_digits(behind);
    let Some(number) = number_of(digits) else {
        return None;
    };
    Some((number, rest))
}

/// Appends the numbers at the front, and answers what stands behind them.
fn take_numbers<'a>(numbers: &mut Vec<u32>, bytes: &'a [u8]) -> Result<&'a [u8], AllocError>
    ensures { IfOk result (λ rest. (ns : List ℕ) × BeginsNumbers bytes.now ns rest.now × (numbers.new.items ≡ numbers.old.items ++ ns)) }
{
    let mut rest = bytes;
    while let Some((number, behind)) = next_number(rest) {
        numbers.push(number)?;
        rest = behind;
    }
    Ok(rest)
}

/// What stands behind spaces and a bar at the front.
fn behind_bar(bytes: &[u8]) -> Option<&[u8]>
    ensures { MatchOption result
        ((behind : List ℕ) → BeginsBar bytes.now behind → ⊥)
        (λ behind. BeginsBar bytes.now behind.now) }
{
    let (spaces, behind) = split_spaces(bytes);
    if spaces.is_empty() {
        return None;
    }
    let Some((first, rest)) = behind.split_first() else {
        return None;
    };
    if *first != b'|' {
        return None;
    }
    Some(rest)
}

/// What stands behind the word `order` at the front.
fn behind_word(line: &[u8]) -> Option<&[u8]>
    ensures { MatchOption result
        ((bytes : List ℕ) → line.now ≡ codes "order" ++ bytes → ⊥)
        (λ bytes. line.now ≡ codes "order" ++ bytes.now) }
{
    if line.len() < 5 {
        return None;
    }
    let (word, bytes) = line.split_at(5);
    if word != b"order".as_slice() {
        return None;
    }
    Some(bytes)
}

/// The crash of a line, if it is the line of one.
fn crash_of_line(alloc: Global, line: &[u8]) -> Result<Option<Crash>, AllocError>
    requires { length line.now ≤ 4096 }
    ensures { IfOk result (λ found. MatchOption found
        ((crash : CrashOf) → IsCrashLine line.now crash → ⊥)
        (λ crash. IsCrashLine line.now crash)) }
{
    let Some(bytes) = behind_word(line) else {
        return Ok(None);
    };
    let mut order = Vec::new(alloc);
    let rest = take_numbers(&mut order, bytes)?;
    let cut = order.len() as u32;
    let Some(behind) = behind_bar(rest) else {
        return Ok(None);
    };
    let rest = take_numbers(&mut order, behind)?;
    if !rest.is_empty() {
        return Ok(None);
    }
    Ok(Some(Crash {
        order: Seq::from_vec(order),
        cut,
    }))
}

/// The line of a crash file that has to be that of the crash.
fn order_line(bytes: &[u8]) -> Option<&[u8]>
    ensures { MatchOption result
        ((line : List ℕ) → IsLineOf bytes.now line → ⊥)
        (λ line. IsLineOf bytes.now line.now) }
{
    let (first, behind) = first_line(bytes)?;
    let Some((second, rest)) = first_line(behind) else {
        return Some(first);
    };
    if first != b"allowed".as_slice() {
        return None;
    }
    match first_line(rest) {
        None => Some(second),
        Some(_) => None,
    }
}

/// The crash of a crash file, if it is one.
fn crash_of_text(alloc: Global, bytes: &[u8]) -> Result<Option<Crash>, AllocError>
    ensures { IfOk result (λ found. MatchOption found
        ((crash : CrashOf) → IsCrashText bytes.now crash → ⊥)
        (λ crash. IsCrashText bytes.now crash)) }
{
    if bytes.len() > MOST_CRASH_BYTES {
        return Ok(None);
    }
    match order_line(bytes) {
        None => Ok(None),
        Some(line) => {
            let found = crash_of_line(alloc, line)?;
            Ok(found)
        }
    }
}

/// The crash of a crash file: at most 4,096 bytes, with the crash's line and perhaps the line `allowed` before it. Its
/// numbers are those of the file, whatever they are; `judge` says whether they are a crash of some events. `BadText`
/// comes exactly where the bytes are no crash file, `OutOfMemory` where there was too little memory.
pub fn read(alloc: Global, bytes: &[u8]) -> Result<Crash, CrashFault>
    ensures read { IfOk result (λ crash. IsCrashText bytes.now crash) }
    ensures unread { IsErrOf result BadText → (crash : CrashOf) → IsCrashText bytes.now crash → ⊥ }
{
    match crash_of_text(alloc, bytes) {
        Err(_refused) => Err(CrashFault::OutOfMemory),
        Ok(None) => Err(CrashFault::BadText),
        Ok(Some(crash)) => Ok(crash),
    }
}
