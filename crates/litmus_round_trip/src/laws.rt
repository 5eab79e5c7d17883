ghost use Rattle.std.specs.Prelude.{ℕ, ◌≤◌, length};
ghost use Rattle.litmus_syntax.specs.Test.{Test};
ghost use Rattle.litmus_syntax.specs.Limits.{IsWithinLimits};
ghost use Rattle.litmus_syntax.specs.Same.{IsSameTest};
ghost use Rattle.litmus_syntax.specs.LitmusText.{litmus_text};
ghost use Rattle.litmus_reader.specs.declared.fault.LitmusKind.{LitmusKind};
ghost use Rattle.litmus_reader.specs.LitmusText.{IsLitmusText, IsLitmusRefused};

use litmus_reader::one_reading;

/// What is printed can be read: the canonical text of a litmus test, where it isn't longer than a litmus file may be, is
/// read as that test, in everything but the lines, and as nothing else, and it is never refused. Every `Litmus` keeps to
/// the limits that this asks for.
pub fn reads_back()
    ensures read { (l : Test) → IsWithinLimits l → length (litmus_text l) ≤ 65536 → (m : Test) × IsLitmusText (litmus_text l) m × IsSameTest l m }
    ensures nothing_else { (l m : Test) → IsWithinLimits l → IsLitmusText (litmus_text l) m → IsSameTest l m }
    ensures never_refused { (l : Test) (line : ℕ) (kind : LitmusKind) → IsWithinLimits l → length (litmus_text l) ≤ 65536 → IsLitmusRefused (litmus_text l) line kind → ⊥ }
{
    one_reading();
}
