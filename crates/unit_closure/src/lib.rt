//! Clauses, watches and a trail that are kept closed under unit propagation: what a search and a checker of its log both
//! do with them. `arrivals` takes clauses in at level 0, `steps` propagates, and
//! `standing` reads how literals stand. Each call keeps what the next one needs: the reasons are clauses,
//! watches and trail are in step, and each clause is attached, true from level 0 on, or wider than one that is. It stands on `watch_lists`,
//! `trail_core` and `clause_store`, and on `conflict_cut` for what a reason is.
#![tactic(auto)]

pub mod arrivals;
pub mod laws;
pub mod standing;
pub mod steps;
#[cfg(test)]
mod tests;
