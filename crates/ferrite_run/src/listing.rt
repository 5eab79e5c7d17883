ghost use Rattle.std.specs.Prelude.{◌≡◌, ℕ, ◌≤◌, List, length};
ghost use Rattle.fer_outside.specs.Causes.{Rose};
ghost use Rattle.ferrite_run.specs.Asking.{OnQuestion};
ghost use Rattle.ferrite_run.specs.Done.{Tells};
ghost use Rattle.ferrite_run.specs.Events.{IsTable};
ghost use Rattle.ferrite_run.specs.Saying.{Replies};

use crate::asking::question_of;
use crate::question::Question;
use crate::saying::{Said, Stop, replied};
use command_line::{FileName, ModelName};
use fer_outside::Library;
use report::Outcome;
use std::alloc::Global;

/// The table of the events and of the kept pairs.
fn table(alloc: Global, question: &Question) -> Result<Said, Stop>
    requires counted { question.now.pairs.n ≡ length question.now.events.events }
    ensures listed { Replies (Tells (IsTable question.now)) result }
{
    let outcome = Outcome::EventTable {
        events: &question.events,
        pairs: &question.pairs,
    };
    replied(alloc, &outcome)
}

/// The events of the test, and the pairs of them that have to reach the disk in order.
pub fn list<L: Library>(
    alloc: Global,
    litmus: &FileName,
    model: &ModelName,
    library: &mut L,
) -> Result<Said, Stop>
    ensures answered { Replies (OnQuestion (L.held library.old) (λ other. Rose (L.faults library.old other) (L.faults library.new other)) litmus.now model.now (λ q. Tells (IsTable q))) result }
    ensures stays { L.held library.new ≡ L.held library.old }
    ensures never_falls { (other : List ℕ) → L.faults library.old other ≤ L.faults library.new other }
{
    let question = question_of(alloc, litmus, model, library)?;
    table(alloc, &question)
}
