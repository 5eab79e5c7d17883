ghost use Rattle.std.specs.Prelude.{◌≡◌};
ghost use Rattle.litmus_reader.specs.Kinds.{kind_number};

use thiserror::Error;

/// Why a line of a litmus file is refused.
#[derive(Clone, Copy, Debug, PartialEq, Eq)]
pub enum LitmusKind {
    /// A byte that may not stand in a line.
    BadByte,
    /// Something that is no token.
    BadToken,
    /// The tokens are of none of the forms of the file's version.
    BadLine,
    /// The line is of a form that may not stand at this place, or begins a transaction in another, commits one that
    /// isn't open, or asks the question while one is open.
    OutOfOrder,
    /// A number is above 2^32 - 1, a block is 0 or above 65,536, or a sector is 0 or above the block.
    NumberRange,
    /// `mkdir` in the body, a sync, `mark`, `begin` or `commit` in the setup, or a sync or `mark` in a transaction.
    NotHere,
    /// What follows the `:` of a question is no predicate.
    BadPredicate,
    /// The file ends without a question.
    EndsEarly,
    /// The file, or a part of it that is counted, is too long.
    TooLong,
}

impl LitmusKind {
    /// The number under which the kind is printed, from 1 to 9.
    pub fn number(self) -> u32
        ensures { result ≡ kind_number self }
    {
        match self {
            LitmusKind::BadByte => 1,
            LitmusKind::BadToken => 2,
            LitmusKind::BadLine => 3,
            LitmusKind::OutOfOrder => 4,
            LitmusKind::NumberRange => 5,
            LitmusKind::NotHere => 6,
            LitmusKind::BadPredicate => 7,
            LitmusKind::EndsEarly => 8,
            LitmusKind::TooLong => 9,
        }
    }
}

/// Why bytes aren't read as a litmus test.
#[derive(Clone, Copy, Debug, PartialEq, Eq, Error)]
pub enum LitmusFault {
    /// This line, counted from 1, is the first bad one; line 0 is the whole file.
    #[error("no litmus test")]
    Refused { line: u32, kind: LitmusKind },
    /// Memory was refused.
    #[error("out of memory")]
    OutOfMemory,
}
