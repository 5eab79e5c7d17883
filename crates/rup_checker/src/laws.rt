//! Laws of judging logs. Each function does nothing: its contract is the law.

ghost use Rattle.std.specs.Prelude.{◌≡◌, ℕ, ◌-◌, List, [], Bool, length, Some, slice_get, if◌then◌else◌, codes};
ghost use Rattle.clause_store.specs.declared.Lit.{Lit};
ghost use Rattle.clause_store.specs.Clauses.{Formula};
ghost use Rattle.clause_store.specs.Truth.{MakesAllTrue};
ghost use Rattle.proof_log.specs.LogText.{clause_line, log_lines};
ghost use Rattle.proof_log.specs.Logs.{Logged, IsLog};
ghost use Rattle.rup_checker.specs.declared.judgement.Judgement.{Judgement};
ghost use Rattle.rup_checker.specs.declared.judgement.JudgeKind.TheVariants.{NoEmptyClause};
ghost use Rattle.rup_checker.specs.Accepting.{IsAccepted, IsOpenLog, IsRefused, IsJudged, line_of_clause};

/// Over a formula a log has one judgement at most.
pub fn one_judgement()
    ensures { (formula : Formula) (log : Logged) (a b : Judgement) → IsJudged formula log a → IsJudged formula log b → a ≡ b }
{}

/// Whoever made a log that is accepted, no values make all clauses of the formula true.
pub fn accepted_logs_refute()
    ensures { (formula : Formula) (log : Logged) (values : List Bool) → IsAccepted formula log → MakesAllTrue values formula.clauses → ⊥ }
{}

/// A log that stopped before the empty clause is refused for that alone, at the line behind its clauses.
pub fn open_logs_lack_the_empty_clause()
    ensures { (formula : Formula) (log : Logged) → IsOpenLog formula log → IsRefused formula log (line_of_clause log (length log.part.learned)) NoEmptyClause }
{}

/// The lines that refusals name are those of the log as it is written: that of a clause; behind the last one that of the
/// empty clause, where it ends the log, and else `end`.
pub fn lines_are_those_of_the_text()
    ensures clause { (log : Logged) (number : ℕ) (clause : List Lit) → slice_get log.part.learned number ≡ Some clause
        → slice_get (log_lines log) (line_of_clause log number - 1) ≡ Some (clause_line clause) }
    ensures behind { (log : Logged) → IsLog log → slice_get (log_lines log) (line_of_clause log (length log.part.learned) - 1)
        ≡ Some (if log.part.closed then clause_line [] else codes "end") }
{}
