//! Rows for the parts of a test: a litmus test with the events, places and crashes that were worked out by hand for some of
//! its sites. It has tests alone, and stands above the crates that read a test and list its sites, so that the parts of a
//! test need no reader.
#![tactic(auto)]

#[cfg(test)]
mod tests;
