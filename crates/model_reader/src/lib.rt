//! Reads model files, which say which pairs of events reach the disk in program order: the whole grammar of both versions,
//! with names that are defined by themselves in the second. Each list of bytes either is one model, or is refused at one
//! line for one kind of fault. `read` answers which of the two, exactly as two relations on whole files say it, and
//! `one_reading` is the law that no bytes are both or neither. The lines and the first bad one are those of `line_files`,
//! the tokens those of `lexeme_reader`. Expressions are read by a loop, so that no file makes the stack deep. What a model
//! means is said above.
#![tactic(auto)]

mod draft;
mod expr;
mod fault;
mod files;
mod laws;
mod model;
mod operator;
mod reading;
mod statements;
mod values;
mod waiting;
mod words;

pub use expr::Expr;
pub use fault::{ModelFault, ModelKind};
pub use files::read;
pub use laws::one_reading;
pub use model::{Definition, Model};

#[cfg(test)]
mod tests;
