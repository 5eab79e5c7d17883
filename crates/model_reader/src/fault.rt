ghost use Rattle.std.specs.Prelude.{◌≡◌};
ghost use Rattle.model_reader.specs.Kinds.{kind_number};

use thiserror::Error;

/// Why a line of a model file is refused.
#[derive(Clone, Copy, Debug, PartialEq, Eq)]
pub enum ModelKind {
    /// A byte that may not stand in a line.
    BadByte,
    /// Something that is no token.
    BadToken,
    /// The tokens are of none of the forms of the file's version, or the line stands before the head or behind the end.
    BadLine,
    /// A word outside brackets is neither a base word nor a name that was defined before.
    UnknownName,
    /// The name of a definition is a base word, or was defined before.
    NameTaken,
    /// A word in brackets is no kind.
    UnknownKind,
    /// More than 64 parentheses are open at one place.
    TooDeep,
    /// The file ends without `end`.
    EndsEarly,
    /// More than 512 tokens, or more than 256 lines that begin with `let`, or with `keep`.
    TooMany,
    /// The file has more than 65,536 bytes.
    TooLong,
}

impl ModelKind {
    /// The number under which the kind is printed, from 1 to 10.
    pub fn number(self) -> u32
        ensures { result ≡ kind_number self }
    {
        match self {
            ModelKind::BadByte => 1,
            ModelKind::BadToken => 2,
            ModelKind::BadLine => 3,
            ModelKind::UnknownName => 4,
            ModelKind::NameTaken => 5,
            ModelKind::UnknownKind => 6,
            ModelKind::TooDeep => 7,
            ModelKind::EndsEarly => 8,
            ModelKind::TooMany => 9,
            ModelKind::TooLong => 10,
        }
    }
}

/// Why bytes aren't read as a model.
#[derive(Clone, Copy, Debug, PartialEq, Eq, Error)]
pub enum ModelFault {
    /// This line, counted from 1, is the first bad one; line 0 is the whole file.
    #[error("no model")]
    Refused { line: u32, kind: ModelKind },
    /// Memory was refused.
    #[error("out of memory")]
    OutOfMemory,
}
