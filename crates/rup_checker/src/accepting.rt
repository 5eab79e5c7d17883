//! Judging a whole log over a formula.

ghost use Rattle.std.specs.Prelude.{◌≡◌, ◌<◌, ◌≤◌, length, IfOk, IfSome, MatchOption};
ghost use Rattle.clause_store.specs.Derivations.{EachFollows};
ghost use Rattle.rup_checker.specs.Accepting.{IsJudged, IsFirstWrong, all_clauses, line_behind};

use crate::Checker;
use crate::judgement::{JudgeKind, Judgement};
use clause_store::Store;
use proof_log::{Log, Part};
use std::alloc::{AllocError, Global};

// The line of the clause of this number, where the line `question` stands behind so many clauses.
fn line_of(question: Option<usize>, number: usize) -> u32
    requires { number < 4294967288 }
    ensures { result ≡ line_behind question number }
{
    let line = number as u32 + 4;
    match question {
        Some(before) if before <= number => line + 1,
        _ => line,
    }
}

// How many literals the clauses have together.
fn count_lits(clauses: &Store) -> usize {
    let mut count = 0usize;
    for number in 0..clauses.len() {
        count = count.saturating_add(clauses.clause(number).len());
    }
    count
}

// Has the clauses of a log follow one after the other, the empty one behind them included where it ends them, and answers
// the number of the first one that doesn't.
fn first_wrong(checker: &mut Checker, part: &Part) -> Result<Option<usize>, AllocError>
    requires { part.now.vars ≡ checker.old.vars }
    ensures within { IfOk result (λ wrong. IfSome wrong (λ number. number ≤ length part.now.learned)) }
    ensures first { IfOk result (λ wrong. MatchOption wrong (EachFollows checker.old.clauses (all_clauses part.now)) (λ number. IsFirstWrong checker.old.clauses (all_clauses part.now) number)) }
{
    let learned = part.learned();
    checker.reserve(learned.len(), count_lits(learned))?;
    for number in 0..learned.len() {
        if !checker.step(learned.clause(number))? {
            return Ok(Some(number));
        }
    }
    if !part.closed() {
        return Ok(None);
    }
    if !checker.follows(&[])? {
        return Ok(Some(learned.len()));
    }
    Ok(None)
}

/// Judges a log over a formula, which it takes over without a copy. `Accepted` comes exactly where each clause of the log,
/// the empty one at its end included, follows by unit propagation from the formula and the clauses before it; so the formula
/// has no values that make its clauses true, whoever made the log. Otherwise the first of these decides: the log is made for
/// another formula, which is said of line 3; a clause doesn't follow, and the first one's line is named; the line behind the
/// clauses isn't the empty clause. Only where memory is refused there is no answer.
pub fn accept(alloc: Global, formula: Store, log: &Log) -> Result<Judgement, AllocError>
    requires { length log.now.part.learned < 4294967288 }
    ensures { IfOk result (λ judgement. IsJudged formula log.now judgement) }
{
    let part = log.part();
    if part.vars() != formula.vars() || part.clauses() as usize != formula.len() {
        let kind = JudgeKind::OtherFormula;
        return Ok(Judgement::Refused { line: 3, kind });
    }
    let mut checker = Checker::over(alloc, formula)?;
    if let Some(number) = first_wrong(&mut checker, part)? {
        let line = line_of(log.question(), number);
        let kind = JudgeKind::NotRup;
        return Ok(Judgement::Refused { line, kind });
    }
    if part.closed() {
        return Ok(Judgement::Accepted);
    }
    let line = line_of(log.question(), part.learned().len());
    let kind = JudgeKind::NoEmptyClause;
    Ok(Judgement::Refused { line, kind })
}
