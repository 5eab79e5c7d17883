//! Events, and what a crash may leave of them. A file program's calls become events, the steps that reach the disk one
//! by one; a crash is an order of all events that keeps what the model keeps, with a cut. Here stand the definitions
//! that a user of Ferrite has to believe: valid order, crash, the state after a crash, the truth of a predicate, and the
//! crash that witnesses a question. They speak of lists and numbers alone. The types hold their own rules: events whose
//! numbers name things that are there, and kept pairs as a matrix of bits that contracts see as the list of its pairs.
#![tactic(auto)]

mod event;
mod laws;
mod lifting;
mod limits;
mod pairs;
mod paths;
mod tables;

pub use event::{Crash, Effect, Event, Kind};
pub use laws::{
    all_pairs_keep_program_order, pairs_are_found, paths_have_their_slots, syncs_are_formed,
};
pub use lifting::lift;
pub use limits::{
    MOST_DIRECTORIES, MOST_EVENTS, MOST_EVENTS_BUT_SYNCS, MOST_FILES, MOST_KEYS, MOST_NAMES,
};
pub use pairs::Pairs;
pub use paths::parent_and_name;
pub use tables::{AttrValue, Events, SlotName, Start};

#[cfg(test)]
mod tests;
