//! What the calls of a litmus test mean: the events that reach the disk one by one, or the first call that is refused,
//! with its line and the reason. The calls run on files kept in program order: directories, names, contents, attributes.
//! Directories, files, names, keys and words get numbers by first use. The definitions are tables by cases on the call:
//! when it is refused, which events it makes, what it changes. A write is cut at blocks and sectors, and the events
//! between a `begin` and its `commit` are one transaction. For each test exactly one of 'these events' and 'refused at
//! this line' holds, and the files that its calls leave are what its events leave. It stands on litmus tests, on events
//! and on tables of names.
#![tactic(auto)]

mod asking;
mod call_kind;
mod changing;
mod contents;
mod files;
mod finding;
mod laws;
mod making;
mod refusing;
mod resolving;
mod running;

pub use call_kind::{CallFault, CallKind};
pub use laws::{inserted_first, one_meaning, one_outcome, same_tests_alike, upgraded_alike};
pub use resolving::resolve;
