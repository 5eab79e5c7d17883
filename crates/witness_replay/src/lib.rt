//! Crashes as lines that anyone can read, write and judge: the order of all events, with a bar where the crash came.
//! `print` writes a crash as such a line, `read` reads one that anyone wrote, and `judge` says whether it is a crash of
//! the events and answers the question, or the first reason why not, with no search. Each is exactly what the
//! definitions say of it. It stands on the crashes of `fer_events` and the states of `crash_state`.
#![tactic(auto)]

mod judgement;
mod judging;
mod laws;
mod printing;
mod reading;
mod standing;

pub use judgement::{CrashFault, CrashJudgement};
pub use judging::judge;
pub use laws::{one_crash, one_judgement, printed_crashes_are_read};
pub use printing::print;
pub use reading::{MOST_CRASH_BYTES, read};

#[cfg(test)]
mod tests;
