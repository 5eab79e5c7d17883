//! Command lines: the words behind the program's name, and the command that they are. What counts as an option, a value
//! or an operand is what `clap` says of one simple command, in its own definition; which of these words are a command,
//! and which command, is a relation over that definition. `command_of` answers the one command that words are, or none
//! exactly where they are none. It stands on `clap`, on the names of the shipped models and on the kinds of sites.
#![tactic(auto)]

mod commands;
mod forms;
mod laws;
mod line;
mod names;
mod operands;
mod values;
mod verbs;
mod words;

pub use commands::{Command, ModelName, SearchOptions, command_of};
pub use laws::one_command;
pub use names::FileName;
pub use words::Words;

#[cfg(test)]
mod tests;
