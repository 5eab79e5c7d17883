//! Laws of logs. Each function does nothing: its contract is the law.

ghost use Rattle.std.specs.Prelude.{◌≡◌, ◌⊎◌, ◌≤◌, ℕ, List, length};
ghost use Rattle.proof_log.specs.declared.fault.LogKind.{LogKind};
ghost use Rattle.proof_log.specs.Logs.{Logged, IsLog};
ghost use Rattle.proof_log.specs.LogText.{log_text};
ghost use Rattle.proof_log.specs.LogFiles.{IsLogText, IsLogRefused};

use text_scan::few_lines;

/// Bytes are the file of one log at most.
#[tactic(auto, using(crate::proofs::OneAnswer::one_text))]
pub fn one_log()
    ensures { (bytes : List ℕ) (a b : Logged) → IsLogText bytes a → IsLogText bytes b → a ≡ b }
{}

/// Bytes are refused at one line at most, for one kind of fault, and not where they are a log.
#[tactic(auto, using(crate::proofs::OneAnswer::one_refusal, crate::proofs::OneAnswer::text_or_refused))]
pub fn one_refusal()
    ensures refusal { (bytes : List ℕ) (i j : ℕ) (k m : LogKind) → IsLogRefused bytes i k → IsLogRefused bytes j m → (i ≡ j) × (k ≡ m) }
    ensures text_or_refused { (bytes : List ℕ) (a : Logged) (i : ℕ) (k : LogKind) → IsLogText bytes a → IsLogRefused bytes i k → ⊥ }
{}

/// What `print` writes is read as that log, where it has at most 64 MiB.
#[tactic(auto, using(crate::proofs::PrintedText::printed_read))]
pub fn printed_logs_are_read()
    ensures { (l : Logged) → IsLog l → length (log_text l) ≤ 67108864 → IsLogText (log_text l) l }
{}

/// Bytes are the file of a log, or they are refused at a line: one of the two, whatever they are.
pub fn log_or_refused()
    ensures { (bytes : List ℕ) → ((l : Logged) × IsLogText bytes l) ⊎ ((line : ℕ) × (kind : LogKind) × IsLogRefused bytes line kind) }
{}

/// A log that was read has at most as many clauses as a log may have bytes.
pub fn read_logs_are_short()
    ensures { (bytes : List ℕ) (l : Logged) → IsLogText bytes l → length l.part.learned ≤ 67108864 }
{
    few_lines();
}
