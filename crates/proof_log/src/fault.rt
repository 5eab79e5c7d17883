ghost use Rattle.std.specs.Prelude.{◌≡◌};
ghost use Rattle.proof_log.specs.Kinds.{kind_number};

use std::alloc::AllocError;
use thiserror::Error;

/// Why a line of a log is refused.
#[derive(Clone, Copy, Debug, PartialEq, Eq)]
pub enum LogKind {
    /// No log has such a line at its place.
    BadLine,
    /// The line is a clause where one may stand, but a literal before its closing 0 is 0 or above the number of variables.
    BadLiteral,
    /// The file ends without the line `end`.
    EndsEarly,
    /// The file has more than 64 MiB.
    TooLong,
}

impl LogKind {
    /// The number under which the kind is printed, from 1 to 4.
    pub fn number(self) -> u8
        ensures { result ≡ kind_number self }
    {
        match self {
            LogKind::BadLine => 1,
            LogKind::BadLiteral => 2,
            LogKind::EndsEarly => 3,
            LogKind::TooLong => 4,
        }
    }
}

/// Why bytes aren't read as a log.
#[derive(Clone, Copy, Debug, PartialEq, Eq, Error)]
pub enum LogFault {
    /// This line, counted from 1, is the first bad one; line 0 is the whole file.
    #[error("no log")]
    Refused { line: u32, kind: LogKind },
    /// Memory was refused.
    #[error("out of memory")]
    OutOfMemory,
}

impl From<AllocError> for LogFault {
    ghost use Rattle.proof_log.specs.declared.fault.LogFault.TheVariants.{OutOfMemory};

    ghost from_gives = { λ _ e. e ≡ OutOfMemory };

    fn from(_refused: AllocError) -> LogFault {
        LogFault::OutOfMemory
    }
}
