//! The meaning of models: which pairs of a file program's events have to reach the disk in order. An expression relates
//! events; a name that is defined by itself stands for the pairs that are in every closed list; a `keep` line keeps the
//! pairs that it relates in program order. `kept` and `kept_by` answer exactly these pairs, of all lines together and of
//! each, over rows of bits. Two laws say that kept pairs run forward, and that more events only add kept pairs, for
//! recursive models too. It stands on the events of `fer_events` and the models of `model_reader`.
#![tactic(auto)]

mod forward;
mod keep_lines;
mod kinds;
mod laws;
mod lexicon;
mod operators;
mod relating;
mod rounds;
mod rows;
mod tables;
mod words;

pub use keep_lines::{kept, kept_by};
pub use laws::{kept_pairs_are_forward, kept_pairs_grow};
