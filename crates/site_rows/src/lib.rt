//! Rows for sites: litmus tests with the sites that were worked out for them by hand. It has tests alone, and stands above
//! the crates that read a test and make its events, so that the list of sites needs no reader.
#![tactic(auto)]

#[cfg(test)]
mod tests;
