ghost use Rattle.std.specs.Prelude.{◌≡◌};
ghost use Rattle.line_files.specs.declared.fault.LineFault.{LineFault};

use std::alloc::AllocError;

/// The faults that files of all grammars may have.
#[derive(Clone, Copy, Debug, PartialEq, Eq)]
pub enum SharedFault {
    /// A line has a byte that may not stand in it.
    BadByte,
    /// A line has something that is no token.
    BadToken,
    /// The file ends before the statement that ends it.
    EndsEarly,
    /// The file has too many bytes.
    TooLong,
}

/// Why a line isn't taken.
#[derive(Clone, Copy, Debug, PartialEq, Eq)]
pub enum LineFault<K> {
    /// It has a fault of this kind.
    Bad(K),
    /// Memory was refused.
    OutOfMemory,
}

impl<K> From<AllocError> for LineFault<K> {
    ghost from_gives = { λ e r. r ≡ LineFault.OutOfMemory };

    fn from(_error: AllocError) -> LineFault<K> {
        LineFault::OutOfMemory
    }
}

/// Why a file isn't read.
#[derive(Clone, Copy, Debug, PartialEq, Eq)]
pub enum FileFault<K> {
    /// This line, counted from 1, is the first bad one; line 0 is the whole file.
    Refused { line: u32, kind: K },
    /// Memory was refused.
    OutOfMemory,
}
