//! One question with its answer. `ask` codes the question as clauses, searches among them, and answers with a crash that
//! is decoded of the values that were found, that no crash answers the question, or that the limit on learned clauses was
//! met. Its contract is over crashes alone: the clauses are seen only where it says why. What was learned on the way is
//! handed out as the part of a log; the branching rule is trusted in nothing. It stands on
//! `predicate_coding`, `order_coding`, `cdcl_core` and the parts of `proof_log`.
#![tactic(auto)]

mod asking;
mod searching;

pub use asking::{Answer, ask};
pub use searching::{clause_count, part_of};

#[cfg(test)]
mod tests;
