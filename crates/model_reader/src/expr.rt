use sqlite_items::Boxed;

/// A relation of events, as a model file writes it.
#[derive(Debug, Drop)]
pub enum Expr {
    /// The first event comes first in program order.
    Po,
    /// Both are one event.
    Id,
    Any,
    SameFile,
    /// Both carry one block of one file.
    SameBlock,
    SameDir,
    SameName,
    SameCall,
    SameTxn,
    /// Both are one event, of a listed kind. Bit k stands for the k-th kind, counted from 0: `write`, `extend`, `trunc`,
    /// `attr`, `link`, `unlink`, `fsync`, `fsyncdir`, `sync`, `mark`.
    Kinds {
        bits: u16,
    },
    /// The meaning of the definition at this place, counted from 0.
    Named {
        index: u32,
    },
    Or {
        left: Boxed<Expr>,
        right: Boxed<Expr>,
    },
    And {
        left: Boxed<Expr>,
        right: Boxed<Expr>,
    },
    /// A pair of the left, then one of the right from where it ends.
    Seq {
        left: Boxed<Expr>,
        right: Boxed<Expr>,
    },
    /// A path of one or more pairs.
    Plus {
        inner: Boxed<Expr>,
    },
}
