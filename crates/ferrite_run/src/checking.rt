ghost use Rattle.std.specs.Prelude.{◌≡◌, ℕ, ◌≤◌, List, length};
ghost use Rattle.fer_outside.specs.Causes.{Rose};
ghost use Rattle.fer_events.specs.Orders.{AreForward};
ghost use Rattle.report.specs.Answers.{IsPrintable};
ghost use Rattle.report.specs.Outcomes.{answer_of};
ghost use Rattle.ferrite_run.specs.Asking.{OnQuestion};
ghost use Rattle.ferrite_run.specs.Check.{IsChecked, plain_log, kept_log};
ghost use Rattle.ferrite_run.specs.Saying.{Replies};

use crate::asking::question_of;
use crate::logging::{most_learned, replied_with};
use crate::question::Question;
use crate::saying::{Said, Stop, replied};
use branch_rules::Brancher;
use command_line::{FileName, ModelName, SearchOptions};
use crash_question::{Answer, ask};
use event_relations::kept_pairs_are_forward;
use fer_outside::Library;
use proof_log::{Log, Part};
use report::Outcome;
use std::alloc::Global;

/// The answer with the log of a part, which is made without syncs.
fn replied_plainly(
    alloc: Global,
    outcome: &Outcome<'_>,
    search: &SearchOptions,
    part: Part,
) -> Result<Said, Stop>
    requires printable { IsPrintable (answer_of outcome.now) }
    ensures replied { Replies (λ done. done ≡ record { answer = answer_of outcome.now; kept = kept_log search.now.log (plain_log part) }) result }
{
    let log = Log::of_part(alloc, part);
    replied_with(alloc, outcome, search, &log)
}

/// Whether a crash answers the question.
fn verdict(
    alloc: Global,
    question: &Question,
    search: &SearchOptions,
    brancher: &mut Option<Box<dyn Brancher>>,
) -> Result<Said, Stop>
    requires size { question.now.pairs.n ≡ length question.now.events.events }
    requires forward { AreForward question.now.pairs.n question.now.pairs.pairs }
    ensures checked { Replies (IsChecked question.now search.now) result }
{
    match ask(
        alloc,
        &question.events,
        &question.pairs,
        question.litmus.pred(),
        question.litmus.want(),
        most_learned(search),
        brancher,
    )? {
        Answer::Allowed(crash) => replied(alloc, &Outcome::Allowed { crash: &crash }),
        Answer::Forbidden(part) => {
            part.keeps_rules();
            replied_plainly(alloc, &Outcome::Forbidden, search, part)
        }
        Answer::Spent(part) => {
            part.keeps_rules();
            match search.conflicts {
                None => unreachable!(),
                Some(limit) => replied_plainly(alloc, &Outcome::Unknown { limit }, search, part),
            }
        }
    }
}

/// Whether a crash answers the question: `allowed` with such a crash, or `forbidden`, with a log where one is asked for; or
/// that the limit was met first, with the log of what was learned.
pub fn check<L: Library>(
    alloc: Global,
    litmus: &FileName,
    model: &ModelName,
    search: &SearchOptions,
    library: &mut L,
    brancher: &mut Option<Box<dyn Brancher>>,
) -> Result<Said, Stop>
    ensures answered { Replies (OnQuestion (L.held library.old) (λ other. Rose (L.faults library.old other) (L.faults library.new other)) litmus.now model.now (λ q. IsChecked q search.now)) result }
    ensures stays { L.held library.new ≡ L.held library.old }
    ensures never_falls { (other : List ℕ) → L.faults library.old other ≤ L.faults library.new other }
{
    kept_pairs_are_forward();
    let question = question_of(alloc, litmus, model, library)?;
    verdict(alloc, &question, search, brancher)
}
