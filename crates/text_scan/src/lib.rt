//! Cuts a file into lines and a line into tokens, and reads what a text stands for. All formats of Ferrite
//! that people write are made of these lines and tokens. Every line either has tokens, one list of them, or
//! a bad byte, or a bad token; `tokens` answers which, exactly, and a bad byte is named before a bad token.
//! Nothing of a line's meaning is known here. It stands on std, and on `thiserror` for its errors.
#![tactic(auto)]

mod bytes;
mod cutting;
mod forms;
mod items;
mod laws;
mod parts;
mod scanning;

pub use cutting::first_line;
pub use items::unescape;
pub use laws::{few_lines, one_answer, one_meaning, text_ends};
pub use scanning::{ScanError, Token, TokenKind, tokens};

#[cfg(test)]
mod tests;
