//! What the tokens of a line say: words, numbers with their values, paths with their components, texts with the bytes
//! that they stand for, and signs. A line either says one list of such things, each of the form that its kind has, or
//! has a bad byte or a bad token. The grammars of Ferrite's files are stated on these lists, so that no grammar speaks
//! of bytes; what they all ask of tokens stands here, as whether a line has too many open parentheses. The tokens are
//! those of `text_scan`.
#![tactic(auto)]

mod fronts;
mod laws;
mod parentheses;
mod reading;

pub use fronts::behind_word;
pub use laws::{one_saying, what_is_said_is_formed};
pub use parentheses::is_deep;
pub use reading::{Lexeme, lexemes};

#[cfg(test)]
mod tests;
