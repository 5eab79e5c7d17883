//! Laws of reading. Each function does nothing: its contract is the law.

ghost use Rattle.std.specs.Prelude.{◌≡◌, ◌⊎◌, ℕ, List};
ghost use Rattle.litmus_syntax.specs.Test.{Test};
ghost use Rattle.litmus_syntax.specs.Limits.{IsWithinLimits};
ghost use Rattle.litmus_reader.specs.declared.fault.LitmusKind.{LitmusKind};
ghost use Rattle.litmus_reader.specs.LitmusText.{IsLitmusText, IsLitmusRefused};

use lexeme_reader::{one_saying, what_is_said_is_formed};
use predicate_reader::{kept_limits, one_predicate, predicate_or_none};

/// What `read` answers, where memory suffices, is the only answer: each list of bytes is one litmus test, or it is
/// refused at one line for one kind of fault, and not both.
pub fn one_reading()
    ensures one_litmus { (bytes : List ℕ) (a b : Test) → IsLitmusText bytes a → IsLitmusText bytes b → a ≡ b }
    ensures one_refusal { (bytes : List ℕ) (i j : ℕ) (k m : LitmusKind)
        → IsLitmusRefused bytes i k → IsLitmusRefused bytes j m → (i ≡ j) × (k ≡ m) }
    ensures text_or_refused { (bytes : List ℕ) (a : Test) (i : ℕ) (k : LitmusKind) → IsLitmusText bytes a → IsLitmusRefused bytes i k → ⊥ }
    ensures one_of_them { (bytes : List ℕ) → ((litmus : Test) × IsLitmusText bytes litmus)
        ⊎ ((line : ℕ) × (kind : LitmusKind) × IsLitmusRefused bytes line kind) }
{
    one_saying();
    what_is_said_is_formed();
    one_predicate();
    predicate_or_none();
}

/// What is read keeps to the forms and limits of litmus tests.
pub fn read_within_limits()
    ensures { (bytes : List ℕ) (litmus : Test) → IsLitmusText bytes litmus → IsWithinLimits litmus }
{
    what_is_said_is_formed();
    kept_limits();
}
