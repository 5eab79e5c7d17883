//! Questions about one list of events, asked one after another of one solver. The clauses of a question but for those of its
//! kept pairs are coded once; a list of kept pairs is asked by assuming its pairs, so that what one question taught serves the
//! next. `ask` answers with a crash that keeps the pairs, that there is none, or that the limit was met, and pairs that a
//! refuted question settles already cost no search. `part` hands out what was learned, as the part of a log of the question
//! with its pairs as clauses. It stands on `predicate_coding`, `cdcl_core` and `crash_question`.
#![tactic(auto)]

mod assuming;
mod series;
mod settling;

pub use assuming::count_pairs;
pub use series::{Series, SeriesAnswer};

#[cfg(test)]
mod tests;
