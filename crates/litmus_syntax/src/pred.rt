ghost use Rattle.std.specs.Prelude.{◌≡◌};
ghost use Rattle.litmus_syntax.specs.Bindings.{tightness, is_looser};

use crate::call::{Path, Text};
use sqlite_items::Boxed;

/// How tightly a predicate binds, the loosest first.
#[derive(Clone, Copy, Debug, Drop)]
pub enum Binding {
    /// An `or`.
    Disjunction,
    /// An `and`.
    Conjunction,
    /// Everything else: an atom, `true`, `false` and a `not`.
    Operand,
}

impl Binding {
    fn tightness(self) -> u8
        ensures { result ≡ tightness self }
    {
        match self {
            Binding::Disjunction => 0,
            Binding::Conjunction => 1,
            Binding::Operand => 2,
        }
    }

    /// Whether this one binds less tightly than the other.
    pub fn is_looser(self, other: Binding) -> bool
        ensures { result ≡ is_looser self other }
    {
        self.tightness() < other.tightness()
    }
}

/// What is asked of the state that a crash left. An atom on a path that holds no file is false.
#[derive(Debug, Drop)]
pub enum Pred {
    True,
    False,
    /// The path holds a file.
    Exists {
        path: Path,
    },
    /// Both paths hold one and the same file.
    Same {
        left: Path,
        right: Path,
    },
    /// The file has this size, in bytes.
    SizeIs {
        path: Path,
        size: u32,
    },
    /// The file's content is this text.
    ContentIs {
        path: Path,
        text: Text,
    },
    /// The file has this text at an offset.
    BytesAre {
        path: Path,
        at: u32,
        text: Text,
    },
    /// The file's attribute has this value.
    AttrIs {
        path: Path,
        key: Text,
        value: u32,
    },
    /// The mark of this word was seen.
    Seen {
        word: Text,
    },
    Not {
        inner: Boxed<Pred>,
    },
    And {
        left: Boxed<Pred>,
        right: Boxed<Pred>,
    },
    Or {
        left: Boxed<Pred>,
        right: Boxed<Pred>,
    },
}
