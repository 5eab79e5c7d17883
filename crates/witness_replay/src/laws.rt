//! Laws of crash files and of judgements. Each function does nothing: its contract is the law.

ghost use Rattle.std.specs.Prelude.{◌≡◌, ℕ, ◌≤◌, ◌++◌, Bool, List, All, length, min, codes};
ghost use Rattle.litmus_syntax.specs.declared.pred.Pred.{Pred};
ghost use Rattle.fer_events.specs.declared.event.Crash.{Crash};
ghost use Rattle.fer_events.specs.Tables.{Trace};
ghost use Rattle.witness_replay.specs.declared.judgement.CrashJudgement.{CrashJudgement};
ghost use Rattle.witness_replay.specs.CrashFiles.{IsCrashText};
ghost use Rattle.witness_replay.specs.CrashLines.{crash_line};
ghost use Rattle.witness_replay.specs.Judging.{IsJudged};

/// Bytes are the file of one crash at most.
pub fn one_crash()
    ensures { (bytes : List ℕ) (x y : Crash) → IsCrashText bytes x → IsCrashText bytes y → x ≡ y }
{}

/// What `print` writes is read as that crash, with a cut above how many numbers there are lowered to that many. So what
/// `check` writes, the line `allowed` and the crash, can be handed to `replay` as it is.
pub fn printed_crashes_are_read()
    ensures alone { (crash : Crash) → All (λ n. n ≤ 4294967295) crash.order → length (crash_line crash) ≤ 4096
        → IsCrashText (crash_line crash) (record { order = crash.order; cut = min crash.cut (length crash.order) }) }
    ensures behind_allowed { (crash : Crash) → All (λ n. n ≤ 4294967295) crash.order → length (codes "allowed\n" ++ crash_line crash) ≤ 4096
        → IsCrashText (codes "allowed\n" ++ crash_line crash) (record { order = crash.order; cut = min crash.cut (length crash.order) }) }
{}

/// A crash has one judgement: so it is judged good exactly where it answers the question.
#[tactic(auto, using(crate::proofs::Judgements::same_judgement))]
pub fn one_judgement()
    ensures { (t : Trace) (kept : List (ℕ × ℕ)) (pred : Pred) (want : Bool) (crash : Crash) (x y : CrashJudgement)
        → IsJudged t kept pred want crash x → IsJudged t kept pred want crash y → x ≡ y }
{}
