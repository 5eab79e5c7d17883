//! The state of the disk while events reach it one by one: the file that each name holds, each file's size, bytes and
//! attributes, and the words that were seen. A `State` begins as the setup left it, takes one event's effect at a time,
//! and tells whether a predicate is true of it, each exactly as the definitions of `fer_events` say. So after a reset
//! and the events before a crash's cut, in their order, it is the state that the crash leaves. It takes all its memory
//! when it is made; then an event costs no more than its own bytes, and an atom no more than what it reads.
#![tactic(auto)]

mod file_bytes;
mod state;

pub use state::State;

#[cfg(test)]
mod tests;
