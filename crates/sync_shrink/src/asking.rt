//! Questions about sets of things.

ghost use Rattle.std.specs.Prelude.{◌≡◌, ◌↔◌, ℕ, ◌<◌, ◌≤◌, length, List, Bool, Some, IfOk, OnErr, IfErr};
ghost use Rattle.std.specs.declared.option.Option.{Option};
ghost use Rattle.fer_events.specs.declared.event.Crash.{Crash};
ghost use Rattle.sync_shrink.specs.Sets.{IsPart};
ghost use Rattle.sync_shrink.specs.Walk.{IsReply};

use fer_events::Crash;
use thiserror::Error;

/// What an oracle says of a set of things.
#[derive(Debug, Drop)]
pub enum Reply {
    /// The set is bad, and the crash shows it.
    Bad(Crash),
    /// The set isn't bad.
    Fine,
}

/// Why an oracle gave no answer.
#[derive(Clone, Copy, Debug, PartialEq, Eq, Error)]
pub enum AskError {
    /// The question cost more than the oracle spends on one.
    #[error("the limit was met")]
    Spent,
    /// Memory was refused.
    #[error("out of memory")]
    OutOfMemory,
}

/// Who knows which sets of things are bad. A set is given by one truth value for each thing, from thing 0.
pub trait Oracle {
    // How many things there are.
    ghost things: { Self → ℕ };

    // The set is bad.
    ghost bad: { Self → List Bool → Type 0 };

    // The crash shows that the set is bad.
    ghost shows: { Self → List Bool → Crash → Type 0 };

    // How many questions were spent.
    ghost spent_count: { Self → ℕ };

    // The set of the last question that was spent, if there was one.
    ghost spent: { Self → Option (List Bool) };

    // What holds of the oracle between its calls.
    ghost ready: { Self → Type 0 };

    // What every call that is lent the oracle leaves as it was.
    ghost stays: { Self → Self → Type 0 };

    /// How many things there are.
    fn count(&self) -> u32
        requires { ready self.now }
        ensures { result ≡ things self.now };

    /// Whether a set is bad. It is `Spent` only where the question was counted as spent; nothing is said of the set then.
    fn ask(&mut self, present: &[bool]) -> Result<Reply, AskError>
        requires ready { ready self.old }
        requires size { length present.now ≡ things self.old }
        ensures ready { ready self.new }
        ensures stays { stays self.old self.new }
        ensures answered { IfOk result (λ reply. IsReply (bad self.old) (shows self.old) present.now reply) }
        ensures counted { IfErr result (λ e. e ≡ AskError.Spent → spent_count self.old < spent_count self.new) }
        ensures spent { IfErr result (λ e. e ≡ AskError.Spent → spent self.new ≡ Some present.now) };

    /// Turns a crash that shows a set bad into one that shows a part of it bad. It takes no memory.
    fn carry(&self, crash: &mut Crash, from: &[bool], to: &[bool])
        requires ready { ready self.now }
        requires shown { shows self.now from.now crash.old }
        requires part { IsPart to.now from.now }
        ensures { shows self.now to.now crash.new };

    // A part of a bad set is bad.
    ghost parts_are_bad: { (o : Self) (part whole : List Bool) → IsPart part whole → bad o whole → bad o part };

    // A set that a crash shows is bad.
    ghost shown_are_bad: { (o : Self) (s : List Bool) (crash : Crash) → shows o s crash → bad o s };

    // What stays is the same as itself, from call to call.
    ghost stays_itself: { (o : Self) → stays o o };

    ghost stays_on: { (o p q : Self) → stays o p → stays p q → stays o q };

    // No call changes the things, or what is bad, or what shows it.
    ghost same_things: { (o p : Self) → stays o p → things o ≡ things p };

    ghost same_bad: { (o p : Self) → stays o p → (s : List Bool) → bad o s ↔ bad p s };

    ghost same_shows: { (o p : Self) → stays o p → (s : List Bool) (crash : Crash) → shows o s crash ↔ shows p s crash };

    // The count of spent questions never falls.
    ghost count_rises: { (o p : Self) → stays o p → spent_count o ≤ spent_count p };
}
