//! Decimal numbers as they stand on lines. `split_digits` takes the digits at the front of bytes, `number_of` is the
//! number that digits write, and `push_numbers` writes a list of numbers; each is pinned by a relation on bytes. It
//! stands on the printing of one number in `litmus_syntax`.
#![tactic(auto)]

ghost use Rattle.std.specs.Prelude.{◌≡◌, ℕ, ◌∷◌, ◌++◌, All, MatchOption, OnOk, decimal, not, position, true};
ghost use Rattle.numerals.specs.Numbers.{IsDecimal, numbers_text};
ghost use Rattle.numerals.specs.Spans.{is_decimal_digit, IsSpan};

use litmus_syntax::push_number;
use std::alloc::AllocError;

/// The least number that 32 bits don't hold.
const WIDE: u64 = 1 << 32;

/// The place of the first byte that is no decimal digit.
fn first_no_digit(bytes: &[u8]) -> Option<usize>
    ensures { result ≡ position (λ b. not (is_decimal_digit b)) bytes.now }
{
    bytes.iter().position(|byte| !byte.is_ascii_digit())
}

/// The decimal digits at the front, and what stands behind them. It takes no memory.
pub fn split_digits(bytes: &[u8]) -> (&[u8], &[u8])
    ensures { IsSpan is_decimal_digit bytes.now result.0.now result.1.now }
{
    bytes.split_at(first_no_digit(bytes).unwrap_or(bytes.len()))
}

/// The number that the digits write, leading zeros or not; nothing where there are no digits, or the number is above
/// 2^32 - 1. It takes no memory.
pub fn number_of(digits: &[u8]) -> Option<u32>
    requires { All (λ b. is_decimal_digit b ≡ true) digits.now }
    ensures { MatchOption result ((n : ℕ) → IsDecimal digits.now n → ⊥) (λ n. IsDecimal digits.now n) }
{
    if digits.is_empty() {
        return None;
    }
    let mut value = 0;
    for digit in digits {
        let next = 10 * value + u64::from(*digit - b'0');
        value = next.min(WIDE);
    }
    if value == WIDE {
        return None;
    }
    Some(value as u32)
}

/// Appends a space and a number.
fn push_number_behind(out: &mut Vec<u8>, number: u32) -> Result<(), AllocError>
    ensures { OnOk result (out.new.items ≡ out.old.items ++ 32 ∷ decimal number) }
{
    out.push(b' ')?;
    push_number(out, number)?;
    Ok(())
}

/// Appends each number with a space before it. Where memory is refused, some of it may be there.
pub fn push_numbers(out: &mut Vec<u8>, numbers: &[u32]) -> Result<(), AllocError>
    ensures { OnOk result (out.new.items ≡ out.old.items ++ numbers_text numbers.now) }
{
    for number in numbers {
        push_number_behind(out, *number)?;
    }
    Ok(())
}

#[cfg(test)]
mod tests;
