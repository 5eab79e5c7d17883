ghost use Rattle.std.specs.Prelude.{◌≡◌, IfOk};
ghost use Rattle.report.specs.Answers.{IsPrintable};
ghost use Rattle.report.specs.Outcomes.{answer_of};
ghost use Rattle.ferrite_run.specs.Done.{only};
ghost use Rattle.ferrite_run.specs.Saying.{Says, StopsWith, Replies};
ghost use Rattle.ferrite_run.specs.Statuses.{status_of};

use command_line::FileName;
use report::{Outcome, text};
use std::alloc::{AllocError, Global};

/// The status of a command's answer.
const ANSWERED: u8 = 0;

/// The status where a log or a crash is refused.
const NOT_ACCEPTED: u8 = 1;

/// The status where a search met its limit.
const UNKNOWN: u8 = 2;

/// The status where the words are no command line.
const USAGE: u8 = 3;

/// The status where the litmus file is refused.
const LITMUS_REFUSED: u8 = 4;

/// The status where the model is refused.
const MODEL_REFUSED: u8 = 5;

/// The status where a file isn't there.
const MISSING: u8 = 6;

/// The status where a file can't be read.
const READ_FAULT: u8 = 7;

/// Bytes that are to be kept under a name.
#[derive(Debug, Drop)]
pub struct Kept {
    pub name: FileName,
    pub bytes: Vec<u8>,
}

/// An answer that is ready to be written: its status and its text, and what is to be kept before.
#[derive(Debug, Drop)]
pub struct Said {
    pub status: u8,
    pub text: Vec<u8>,
    pub kept: Option<Kept>,
}

/// Why the work stops before its command answers.
#[derive(Debug, Drop)]
pub enum Stop {
    /// A step ended it with this answer.
    Answered(Said),
    /// Memory was refused.
    OutOfMemory,
}

impl From<AllocError> for Stop {
    ghost use Rattle.std.specs.Prelude.{◌≡◌};
    ghost use Rattle.ferrite_run.specs.declared.saying.Stop.TheVariants.{OutOfMemory};

    ghost from_gives = { λ _ stop. stop ≡ OutOfMemory };

    fn from(_refused: AllocError) -> Stop {
        Stop::OutOfMemory
    }
}

/// The status of an answer.
fn status_of(outcome: &Outcome<'_>) -> u8
    ensures stated { result ≡ status_of (answer_of outcome.now) }
{
    match outcome {
        Outcome::LogRefused { .. } | Outcome::CrashRefused { .. } | Outcome::CrashUnread => {
            NOT_ACCEPTED
        }
        Outcome::Unknown { .. } => UNKNOWN,
        Outcome::Usage => USAGE,
        Outcome::LitmusRefused { .. } => LITMUS_REFUSED,
        Outcome::ModelRefused { .. } => MODEL_REFUSED,
        Outcome::Missing { .. } => MISSING,
        Outcome::ReadFault { .. } => READ_FAULT,
        _ => ANSWERED,
    }
}

/// The answer with its status and its text. Nothing is to be kept.
pub fn say(alloc: Global, outcome: &Outcome<'_>) -> Result<Said, AllocError>
    requires printable { IsPrintable (answer_of outcome.now) }
    ensures said { IfOk result (λ said. Says said (only (answer_of outcome.now))) }
{
    let text = text(alloc, outcome)?;
    Ok(Said {
        status: status_of(outcome),
        text,
        kept: None,
    })
}

/// The work stops with this answer.
pub fn stopped(alloc: Global, outcome: &Outcome<'_>) -> Stop
    requires printable { IsPrintable (answer_of outcome.now) }
    ensures stopped { StopsWith (λ done. done ≡ only (answer_of outcome.now)) result }
{
    match say(alloc, outcome) {
        Ok(said) => Stop::Answered(said),
        Err(AllocError) => Stop::OutOfMemory,
    }
}

/// The command's answer is this one.
pub fn replied(alloc: Global, outcome: &Outcome<'_>) -> Result<Said, Stop>
    requires printable { IsPrintable (answer_of outcome.now) }
    ensures replied { Replies (λ done. done ≡ only (answer_of outcome.now)) result }
{
    let said = say(alloc, outcome)?;
    Ok(said)
}
