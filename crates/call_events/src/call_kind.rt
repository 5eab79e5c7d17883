ghost use Rattle.std.specs.Prelude.{◌≡◌};
ghost use Rattle.call_events.specs.Refusals.{kind_number};

use std::alloc::AllocError;
use thiserror::Error;

/// Why a call of a litmus test, or its question, is refused.
#[derive(Clone, Copy, Debug, PartialEq, Eq)]
pub enum CallKind {
    /// The path, or the first of two, names no file.
    NoSuchFile,
    /// A new name is a file or a directory already.
    NameTaken,
    /// The parent of a new name isn't a directory, or what should be a directory isn't one.
    NoDirectory,
    /// A file would end behind byte 65,536.
    FileTooLong,
    /// More than 64 events that aren't syncs, or more than 128 in all.
    TooManyEvents,
    /// The question asks for a mark that no call makes.
    UnknownMark,
    /// The 33rd file, the 17th directory, the 65th name or the 17th key.
    TooMany,
}

impl CallKind {
    /// The number that is printed for the kind.
    pub fn number(self) -> u32
        ensures { result ≡ kind_number self }
    {
        match self {
            CallKind::NoSuchFile => 10,
            CallKind::NameTaken => 11,
            CallKind::NoDirectory => 12,
            CallKind::FileTooLong => 13,
            CallKind::TooManyEvents => 14,
            CallKind::UnknownMark => 15,
            CallKind::TooMany => 16,
        }
    }
}

/// Why a litmus test has no events.
#[derive(Clone, Copy, Debug, Error)]
pub enum CallFault {
    /// The first call that is refused, or else the question, stands in this line, counted from 1.
    #[error("a call is refused")]
    Refused { line: u32, kind: CallKind },
    /// Memory was refused.
    #[error("out of memory")]
    OutOfMemory,
}

impl From<AllocError> for CallFault {
    ghost use Rattle.call_events.specs.declared.call_kind.CallFault.TheVariants.{OutOfMemory};

    ghost from_gives = { λ _ e. e ≡ OutOfMemory };

    fn from(_error: AllocError) -> CallFault {
        CallFault::OutOfMemory
    }
}
