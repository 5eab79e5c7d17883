//! Rows of `run`: what is written about a litmus file and a model, and with which status, for each command; in which order
//! the files of a command are fetched, read and refused; and which words are no command line. The rows stand apart from
//! the crate that they test, since the proof of a crate's tests begins with a proof of the crate.
#![tactic(auto)]

#[cfg(test)]
mod tests;
