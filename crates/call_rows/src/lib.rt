//! Rows of `call_events`: the events of one test with texts, blocks and syncs of ordinary and of greatest size, and the
//! lines at which one more is refused. The rows stand apart from the crate that they test, since the proof of a crate's
//! tests begins with a proof of the crate.
#![tactic(auto)]

#[cfg(test)]
mod tests;
