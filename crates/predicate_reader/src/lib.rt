//! Reads the predicate of a question from what its tokens say. The grammar is a relation: `or` binds least, then `and`,
//! both grouped to the left, then `not`, and atoms and parentheses most. `predicate` answers the one predicate that the
//! tokens are, or nothing exactly where they are none; that they are one or none, and that its parts keep to the forms
//! and limits of its tokens, are laws. `is_short` tells whether a question isn't too long, which bounds how deep the
//! calls nest, and `are_in_range` whether its numbers are in range. It stands on `lexeme_reader`'s tokens and on the
//! predicates of `litmus_syntax`.
#![tactic(auto)]

mod atoms;
mod counts;
mod laws;
mod predicates;
mod ranges;
mod tokens;

pub use counts::is_short;
pub use laws::{kept_limits, one_predicate, predicate_or_none};
pub use predicates::predicate;
pub use ranges::are_in_range;

#[cfg(test)]
mod tests;
