ghost use Rattle.std.specs.Prelude.{◌≡◌, ℕ, ◌≤◌, List, length};
ghost use Rattle.fer_outside.specs.Causes.{Rose};
ghost use Rattle.report.specs.Answers.{IsPrintable};
ghost use Rattle.report.specs.Outcomes.{answer_of};
ghost use Rattle.ferrite_run.specs.Reading.{OnCrash};
ghost use Rattle.ferrite_run.specs.Asking.{OnQuestion};
ghost use Rattle.ferrite_run.specs.Done.{Tells};
ghost use Rattle.ferrite_run.specs.Replay.{answer_to, IsReplayed};
ghost use Rattle.ferrite_run.specs.Saying.{Replies};

use crate::asking::question_of;
use crate::question::Question;
use crate::reading::crash_of;
use crate::saying::{Said, Stop, replied};
use command_line::{FileName, ModelName};
use crash_state::State;
use fer_events::Crash;
use fer_outside::Library;
use report::Outcome;
use std::alloc::Global;
use witness_replay::{CrashJudgement, judge};

/// The answer to a crash of this judgement.
fn answer_to(judgement: CrashJudgement) -> Outcome<'static>
    ensures answered { answer_of result ≡ answer_to judgement }
    ensures printable { IsPrintable (answer_of result) }
{
    match judgement {
        CrashJudgement::Good => Outcome::CrashAccepted,
        _ => Outcome::CrashRefused { judgement },
    }
}

/// Judges the crash against the question.
fn replay_crash(alloc: Global, question: &Question, crash: &Crash) -> Result<Said, Stop>
    requires counted { question.now.pairs.n ≡ length question.now.events.events }
    ensures replayed { Replies (Tells (IsReplayed question.now crash.now)) result }
{
    let events = &question.events;
    let mut scratch = State::new(alloc, events)?;
    let judgement = judge(
        events,
        &question.pairs,
        question.litmus.pred(),
        question.litmus.want(),
        crash,
        &mut scratch,
    );
    replied(alloc, &answer_to(judgement))
}

/// Judges the crash in the file of this name against the question.
fn replay_file<L: Library>(
    alloc: Global,
    question: &Question,
    name: &FileName,
    library: &mut L,
) -> Result<Said, Stop>
    requires counted { question.now.pairs.n ≡ length question.now.events.events }
    ensures replayed { Replies (OnCrash (L.held library.old) (λ other. Rose (L.faults library.old other) (L.faults library.new other)) name.now (λ read. Tells (IsReplayed question.now read))) result }
    ensures stays { L.held library.new ≡ L.held library.old }
    ensures never_falls { (other : List ℕ) → L.faults library.old other ≤ L.faults library.new other }
{
    let crash = crash_of(alloc, name, library)?;
    replay_crash(alloc, question, &crash)
}

/// Whether the crash of the crash file answers the question, and else the first reason why it doesn't.
pub fn replay<L: Library>(
    alloc: Global,
    litmus: &FileName,
    model: &ModelName,
    crash: &FileName,
    library: &mut L,
) -> Result<Said, Stop>
    ensures answered { Replies (OnQuestion (L.held library.old) (λ other. Rose (L.faults library.old other) (L.faults library.new other)) litmus.now model.now (λ q. OnCrash (L.held library.old) (λ other. Rose (L.faults library.old other) (L.faults library.new other)) crash.now (λ read. Tells (IsReplayed q read)))) result }
    ensures stays { L.held library.new ≡ L.held library.old }
    ensures never_falls { (other : List ℕ) → L.faults library.old other ≤ L.faults library.new other }
{
    let question = question_of(alloc, litmus, model, library)?;
    replay_file(alloc, &question, crash, library)
}
