ghost use Rattle.std.specs.Prelude.{◌≡◌, ◌≤◌, ℕ, Bool, true, false, List, ◌∷◌, ◌++◌, All, MatchOption, MatchBool, IfSome};
ghost use Rattle.std.specs.Str.Parse.{digits_value};
ghost use Rattle.clause_store.specs.declared.Lit.{Lit as LitOf};
ghost use Rattle.clause_store.specs.Clauses.{InVars};
ghost use Rattle.numerals.specs.Spans.{is_decimal_digit, StartsNot};
ghost use Rattle.proof_log.specs.LogText.{sign};
ghost use Rattle.proof_log.specs.LogFiles.{IsNumber};
ghost use Rattle.proof_log.specs.Tokens.{BeginsLiteral, BeginsNumber};

use clause_store::Lit;
use numerals::{number_of, split_digits};

/// What stands behind these bytes at the front.
pub fn behind<'a>(line: &'a [u8], front: &[u8]) -> Option<&'a [u8]>
    ensures { MatchOption result ((rest : List ℕ) → line.now ≡ front.now ++ rest → ⊥) (λ rest. line.now ≡ front.now ++ rest.now) }
{
    line.strip_prefix(front)
}

/// Whether the digits are those of a number without leading zeros.
fn is_number(digits: &[u8]) -> bool
    requires { All (λ b. is_decimal_digit b ≡ true) digits.now }
    ensures { MatchBool result (IsNumber digits.now (digits_value 10 digits.now)) ((n : ℕ) → IsNumber digits.now n → ⊥) }
{
    let Some((first, others)) = digits.split_first() else {
        return false;
    };
    if *first != b'0' {
        return true;
    }
    others.is_empty()
}

/// Whether no minus stands at the front, and what stands behind it.
fn split_sign(line: &[u8]) -> (bool, &[u8])
    ensures spelled { line.now ≡ sign result.0 ++ result.1.now }
    ensures first { result.0 ≡ true → (rest : List ℕ) → line.now ≡ sign false ++ rest → ⊥ }
{
    match behind(line, b"-") {
        Some(rest) => (false, rest),
        None => (true, line),
    }
}

/// The sign and the digits of the literal at the front, and what stands behind its space.
pub fn next_literal(line: &[u8]) -> Option<(bool, &[u8], &[u8])>
    ensures found { MatchOption result
        ((l : LitOf) (digits rest : List ℕ) → BeginsLiteral line.now l digits rest → ⊥)
        (λ r. BeginsLiteral line.now (record { var = digits_value 10 r.1.now; positive = r.0 }) r.1.now r.2.now) }
    ensures digits { IfSome result (λ r. All (λ b. is_decimal_digit b ≡ true) r.1.now) }
{
    let (positive, unsigned) = split_sign(line);
    let (digits, behind_digits) = split_digits(unsigned);
    if !is_number(digits) {
        return None;
    }
    let Some(rest) = behind(behind_digits, b" ") else {
        return None;
    };
    Some((positive, digits, rest))
}

/// The literal of this sign and the variable that the digits write, if that is one from 1 to `vars`.
pub fn lit_of(vars: u32, positive: bool, digits: &[u8]) -> Option<Lit>
    requires digits { All (λ b. is_decimal_digit b ≡ true) digits.now }
    requires number { IsNumber digits.now (digits_value 10 digits.now) }
    ensures { MatchOption result
        (InVars vars (record { var = digits_value 10 digits.now; positive = positive }) → ⊥)
        (λ lit. (lit ≡ record { var = digits_value 10 digits.now; positive = positive }) × InVars vars lit) }
{
    let Some(var) = number_of(digits) else {
        return None;
    };
    if var == 0 || var > vars {
        return None;
    }
    Some(Lit { var, positive })
}

/// The number behind a space at the front, and what stands behind it.
pub fn next_number(line: &[u8]) -> Option<(u32, &[u8])>
    ensures { MatchOption result
        ((n : ℕ) (rest : List ℕ) → BeginsNumber line.now n rest → ⊥)
        (λ r. BeginsNumber line.now r.0 r.1.now) }
{
    let Some(unspaced) = behind(line, b" ") else {
        return None;
    };
    let (digits, rest) = split_digits(unspaced);
    if !is_number(digits) {
        return None;
    }
    let Some(number) = number_of(digits) else {
        return None;
    };
    Some((number, rest))
}
