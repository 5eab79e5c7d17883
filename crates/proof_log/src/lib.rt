//! Logs: the clauses from which anyone can check that a question has no answer, as lines of text. `print` writes a log,
//! `read` reads one that anyone wrote, or says which line is the first bad one and why. A log is written in one way but
//! for line ends, so both are stated over its list of lines, and laws say that bytes are one log or have one refusal.
//! It stands on the clauses of `clause_store` and the lines of `text_scan`; `rup_checker` judges what a log says.
#![tactic(auto)]

mod draft;
mod fault;
mod laws;
mod log;
mod opening;
mod printing;
mod reading;
mod tokens;

pub use fault::{LogFault, LogKind};
pub use laws::{log_or_refused, one_log, one_refusal, printed_logs_are_read, read_logs_are_short};
pub use log::{Log, Part};
pub use printing::print;
pub use reading::{MOST_LOG_BYTES, read};

#[cfg(test)]
mod tests;
