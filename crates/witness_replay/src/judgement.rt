use thiserror::Error;

/// Whether a crash answers a question, and else the first reason why it doesn't.
#[derive(Clone, Copy, Debug, PartialEq, Eq)]
pub enum CrashJudgement {
    /// It is a crash of the events, and it answers the question.
    Good,
    /// The numbers aren't those of the events, each once, or the cut is above how many they are.
    NotAnOrder,
    /// Event `b` stands before `a`, which has to reach the disk first; the least such pair, by `a`, then `b`.
    PairBroken { a: u32, b: u32 },
    /// The cut splits this transaction, the least one that it splits.
    TransactionSplit { txn: u32 },
    /// The crash doesn't answer the question.
    PredicateFalse,
}

/// Why bytes aren't read as a crash.
#[derive(Clone, Copy, Debug, PartialEq, Eq, Error)]
pub enum CrashFault {
    /// They don't have the form of a crash file.
    #[error("no crash")]
    BadText,
    /// Memory was refused.
    #[error("out of memory")]
    OutOfMemory,
}
