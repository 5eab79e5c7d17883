//! Rows for the coding of questions: litmus tests with the clauses that were worked out for them by hand. It has tests
//! alone, and stands above the crates that read a test and make its events, so that the coding needs neither.
#![tactic(auto)]

#[cfg(test)]
mod tests;
