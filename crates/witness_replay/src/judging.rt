ghost use Rattle.std.specs.Prelude.{◌≡◌, length};
ghost use Rattle.crash_state.specs.Fits.{Fits};
ghost use Rattle.fer_events.specs.States.{after_crash};
ghost use Rattle.fer_events.specs.Truth.{truth};
ghost use Rattle.witness_replay.specs.Judging.{IsOrder, IsJudged};

use crate::judgement::CrashJudgement;
use crate::standing::{first_misplaced, first_parted, is_order, places_of};
use crash_state::State;
use fer_events::{Crash, Events, Pairs};
use litmus_syntax::Pred;

/// The truth of the predicate in the state that the crash leaves, which becomes that of `scratch`.
fn truth_behind(events: &Events, pred: &Pred, crash: &Crash, scratch: &mut State) -> bool
    requires ordered { IsOrder (length events.now.events) crash.now }
    requires fits { Fits scratch.old events.now }
    ensures truth { result ≡ truth events.now (after_crash events.now crash.now) pred.now }
    ensures fits { Fits scratch.new events.now }
{
    let (before, _) = crash.order.as_slice().split_at(crash.cut as usize);
    scratch.reset(events);
    for event in before {
        scratch.apply(events, *event);
    }
    scratch.holds(events, pred)
}

/// Judges a crash: whether it is a crash of the events that keeps the pairs, and whether the predicate is then as wanted,
/// true for `exists:` and false for `always:`. Any order and any cut may be asked about. The first reason that applies is
/// answered, in the order of `CrashJudgement`. The scratch state is left in some state of the events. It takes no memory.
pub fn judge(
    events: &Events,
    pairs: &Pairs,
    pred: &Pred,
    want: bool,
    crash: &Crash,
    scratch: &mut State,
) -> CrashJudgement
    requires counted { pairs.now.n ≡ length events.now.events }
    requires fits { Fits scratch.old events.now }
    ensures judged { IsJudged events.now pairs.now.pairs pred.now want crash.now result }
    ensures fits { Fits scratch.new events.now }
{
    events.keeps_rules();
    let n = pairs.n();
    if !is_order(n, crash) {
        return CrashJudgement::NotAnOrder;
    }
    let places = places_of(n, crash.order.as_slice());
    if let Some((a, b)) = first_misplaced(pairs, &places) {
        return CrashJudgement::PairBroken { a, b };
    }
    if let Some(txn) = first_parted(events.events(), &places, crash.cut as usize) {
        return CrashJudgement::TransactionSplit { txn };
    }
    if truth_behind(events, pred, crash, scratch) == want {
        CrashJudgement::Good
    } else {
        CrashJudgement::PredicateFalse
    }
}
