ghost use Rattle.std.specs.Prelude.{◌≡◌, ℕ, ◌≤◌, List, IfOk, IfErr};
ghost use Rattle.fer_outside.specs.Causes.{Rose};
ghost use Rattle.report.specs.Answers.{IsPrintable};
ghost use Rattle.report.specs.Outcomes.{answer_of};
ghost use Rattle.ferrite_run.specs.Fetching.{most_bytes, too_long, IsFetched, IsUnfetched};
ghost use Rattle.ferrite_run.specs.Done.{Tells};
ghost use Rattle.ferrite_run.specs.Saying.{StopsWith};

use crate::saying::{Stop, stopped};
use command_line::FileName;
use fer_outside::{FetchError, Library};
use line_files::MOST_BYTES;
use litmus_reader::LitmusKind;
use model_reader::ModelKind;
use report::{Outcome, Role};
use std::alloc::Global;

/// The most bytes that a file may have which plays this part.
fn most_bytes(role: Role) -> usize
    ensures counted { result ≡ most_bytes role }
{
    match role {
        Role::LitmusFile | Role::ModelFile => MOST_BYTES,
        Role::LogFile => 67_108_864,
        Role::CrashFile => 4096,
    }
}

/// The answer to a file that has more of them.
fn too_long(role: Role) -> Outcome<'static>
    ensures answered { answer_of result ≡ too_long role }
    ensures printable { IsPrintable (answer_of result) }
{
    match role {
        Role::LitmusFile => Outcome::LitmusRefused {
            line: 0,
            kind: LitmusKind::TooLong.number(),
        },
        Role::ModelFile => Outcome::ModelRefused {
            line: 0,
            kind: ModelKind::TooLong.number(),
        },
        Role::LogFile => Outcome::LogRefused { line: 0, kind: 4 },
        Role::CrashFile => Outcome::CrashUnread,
    }
}

/// The bytes of the file that plays this part.
pub fn fetch<L: Library>(
    alloc: Global,
    role: Role,
    name: &FileName,
    library: &mut L,
) -> Result<Vec<u8>, Stop>
    ensures fetched { IfOk result (λ bytes. IsFetched (L.held library.old) role name.now bytes.items) }
    ensures unfetched { IfErr result (StopsWith (Tells (IsUnfetched (L.held library.old) (Rose (L.faults library.old name.now) (L.faults library.new name.now)) role name.now))) }
    ensures stays { L.held library.new ≡ L.held library.old }
    ensures never_falls { (other : List ℕ) → L.faults library.old other ≤ L.faults library.new other }
{
    match library.fetch(alloc, name.as_str(), most_bytes(role)) {
        Ok(bytes) => Ok(bytes),
        Err(FetchError::Missing) => Err(stopped(alloc, &Outcome::Missing { role })),
        Err(FetchError::TooLong) => Err(stopped(alloc, &too_long(role))),
        Err(FetchError::Failed) => Err(stopped(alloc, &Outcome::ReadFault { role })),
        Err(FetchError::OutOfMemory) => Err(Stop::OutOfMemory),
    }
}
