ghost use Rattle.std.specs.Prelude.{◌≡◌, ◌≢◌, length, IfOk};
ghost use Rattle.fer_events.specs.Orders.{AreForward};
ghost use Rattle.proof_log.specs.Logs.{Derivation};
ghost use Rattle.crash_question.specs.declared.asking.Answer.TheVariants.{Spent};
ghost use Rattle.crash_question.specs.Answers.{IsAnswerTo};

use crate::searching::{Found, search};
use branch_rules::Brancher;
use clause_store::laws::derived_clauses_are_true;
use fer_events::{Crash, Events, Pairs};
use litmus_syntax::Pred;
use order_coding::decode;
use predicate_coding::{Coded, code};
use proof_log::Part;
use std::alloc::{AllocError, Global};

/// What a search answered.
#[derive(Debug, Drop)]
pub enum Answer {
    /// This crash answers the question.
    Allowed(Crash),
    /// No crash answers the question. Put behind the question's clauses, those of the part show it, and the empty clause
    /// ends them.
    Forbidden(Part),
    /// As many clauses were learned as was allowed, those of the part, and the question is open.
    Spent(Part),
}

/// Asks for a crash that keeps the pairs and after which the predicate is true, where `want` is true, or false, where it is
/// false. The events behind the cut of a crash that is answered ascend. At most `limit` clauses are learned; 2^64 - 1 is
/// no limit. The rule says which variable is tried next, and nothing else hangs on it. The only error is want of memory;
/// a question of 2^32 clauses or more counts as one that wants it.
pub fn ask(
    alloc: Global,
    events: &Events,
    pairs: &Pairs,
    pred: &Pred,
    want: bool,
    limit: u64,
    brancher: &mut Option<Box<dyn Brancher>>,
) -> Result<Answer, AllocError>
    requires size { pairs.now.n ≡ length events.now.events }
    requires forward { AreForward pairs.now.n pairs.now.pairs }
    ensures answer { IfOk result (λ answer. IsAnswerTo events.now pairs.now.pairs pred.now want limit answer) }

    // The greatest limit is never met.
    ensures endless { limit ≡ 18446744073709551615 → IfOk result (λ answer. (part : Derivation) → answer ≢ Spent part) }
{
    derived_clauses_are_true();
    let Coded { store, .. } = code(alloc, events, pairs, pred, want)?;
    match search(alloc, store, limit, brancher)? {
        Found::Values(values) => {
            let crash = decode(alloc, events, values.as_slice())?;
            Ok(Answer::Allowed(crash))
        }
        Found::Refuted(part) => Ok(Answer::Forbidden(part)),
        Found::Spent(part) => Ok(Answer::Spent(part)),
    }
}
