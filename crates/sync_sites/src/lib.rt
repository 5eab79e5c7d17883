//! The sites of a litmus test: the syncs that a repair may put behind the calls of its body. `sites` lists them in order
//! for one kind of sync, from the events that the test has without them: behind each call an `fsync` of each file that was
//! touched, by its least path, an `fsyncdir` of each directory that was touched, or one `sync`, and nothing where a
//! transaction is open. It tells exactly when events and sites together pass the limit of 128. Sites that it lists are
//! never refused as calls. It stands on litmus tests, on events and on the meaning of calls.
#![tactic(auto)]

mod fault;
mod held;
mod laws;
mod listing;
mod names;
mod syncs;

pub use fault::SitesFault;
pub use laws::{sites_are_accepted, sites_are_syncs, too_many_or_few};
pub use listing::sites;
