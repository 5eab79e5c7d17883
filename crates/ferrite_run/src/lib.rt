//! All that the program does: it reads the words of its command line, fetches and reads the files that they name, answers
//! the command and writes the answer. The work is a row of steps, each a relation that takes what follows as a parameter;
//! the first step that ends the work says the answer. An answer is a value with one status and one text. Each step is a
//! function with a contract of its own, and the contract of `run` is what they come to together. It stands on the readers
//! of litmus files and models, on the events that calls become, on the pairs that a model keeps, on the search of
//! `crash_question`, on the repair of `sync_repair`, on the logs of `proof_log` with their checker, and on `report`.
#![tactic(auto)]

mod asking;
mod built;
mod checking;
mod choices;
mod clauses;
mod delivering;
mod fetching;
mod laws;
mod listing;
mod logging;
mod question;
mod reading;
mod repairing;
mod replaying;
mod saying;
mod showing;
mod siting;
mod top;
mod verifying;
mod working;
mod writing;

pub use choices::Choice;
pub use command_line::Words;
pub use laws::{
    kept_logs_are_logs, one_answer, repair_logs_are_logs, repaired_tests_are_read,
    sequential_keeps_all,
};
pub use top::run;
