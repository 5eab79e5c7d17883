//! Rows for kept pairs: litmus tests and models with the pairs that were worked out for them by hand. It has tests alone,
//! and stands above the crates that read a test and a model and make a test's events, so that the meaning of models needs
//! none of them.
#![tactic(auto)]

#[cfg(test)]
mod tests;
