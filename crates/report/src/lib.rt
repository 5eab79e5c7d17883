//! Every text that Ferrite prints. An `Outcome` names what is answered, and `text` makes its lines: verdicts with the
//! crash that shows them, repairs with the syncs that they need, the table of events and kept pairs, the canonical text of
//! a litmus test, what there is of a generated test, the shipped models, what becomes of logs and crashes, and refusals. A
//! text is a function of the answer, so two runs that answer the same print the same bytes. It stands on the canonical
//! print of `litmus_syntax`, the events of `fer_events`, the crash lines of `witness_replay` and the texts of
//! `model_library`.
#![tactic(auto)]

mod event_table;
mod outcome;
mod printing;
mod repairs;
mod tokens;

pub use outcome::{NeedLine, Outcome, Role, Summary};
pub use printing::text;

#[cfg(test)]
mod tests;
