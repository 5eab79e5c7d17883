//! Answers with the log that is kept with them.

ghost use Rattle.std.specs.Prelude.{◌≡◌, Some, unwrap_or, IfOk};
ghost use Rattle.report.specs.Answers.{IsPrintable};
ghost use Rattle.report.specs.Outcomes.{answer_of};
ghost use Rattle.ferrite_run.specs.Check.{kept_log};
ghost use Rattle.ferrite_run.specs.Saying.{Replies, kept_in};

use crate::saying::{Kept, Said, Stop, say};
use command_line::{FileName, SearchOptions};
use proof_log::Log;
use report::Outcome;
use std::alloc::{AllocError, Global};

/// How many clauses may be learned for a question. Without a limit, so many never come.
pub fn most_learned(search: &SearchOptions) -> u64
    ensures { result ≡ unwrap_or search.now.conflicts 18446744073709551615 }
{
    match search.conflicts {
        None => u64::MAX,
        Some(limit) => u64::from(limit),
    }
}

/// The log, to be kept under this name.
fn log_under(alloc: Global, name: &FileName, log: &Log) -> Result<Kept, AllocError>
    ensures { IfOk result (λ kept. kept_in (Some kept) ≡ kept_log (Some name.now) log.now) }
{
    let bytes = proof_log::print(alloc, log)?;
    let name = FileName::new(alloc, name.as_str())?;
    Ok(Kept { name, bytes })
}

/// The log, to be kept under the name that is given for it, if one is.
fn log_for(alloc: Global, search: &SearchOptions, log: &Log) -> Result<Option<Kept>, AllocError>
    ensures { IfOk result (λ kept. kept_in kept ≡ kept_log search.now.log log.now) }
{
    match &search.log {
        None => Ok(None),
        Some(name) => {
            let kept = log_under(alloc, name, log)?;
            Ok(Some(kept))
        }
    }
}

/// The answer with its log.
pub fn replied_with(
    alloc: Global,
    outcome: &Outcome<'_>,
    search: &SearchOptions,
    log: &Log,
) -> Result<Said, Stop>
    requires printable { IsPrintable (answer_of outcome.now) }
    ensures replied { Replies (λ done. done ≡ record { answer = answer_of outcome.now; kept = kept_log search.now.log log.now }) result }
{
    let kept = log_for(alloc, search, log)?;
    let Said { status, text, .. } = say(alloc, outcome)?;
    Ok(Said { status, text, kept })
}
