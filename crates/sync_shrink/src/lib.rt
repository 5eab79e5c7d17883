//! The walk that drops things one by one while they aren't needed. An oracle says of a set of things whether it is bad, and
//! shows a bad set by a crash; `shrink` begins with all things and keeps those without which what is left would be bad,
//! each with a crash that shows it. What an oracle means stands in the trait `Oracle`, as facts that each oracle proves of
//! itself; the walk trusts nothing else. It knows nothing of what the things are. It stands on the crashes of `fer_events`.
#![tactic(auto)]

mod asking;
mod laws;
mod walking;

pub use asking::{AskError, Oracle, Reply};
pub use laws::{kept_sets_are_least, one_walk};
pub use walking::{Need, ShrinkError, Shrunk, shrink};

#[cfg(test)]
mod tests;
