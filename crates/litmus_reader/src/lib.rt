//! Reads litmus files: the whole grammar of both versions, line by line and token by token. Each list of bytes either
//! is one litmus test, or is refused at one line for one kind of fault: the first bad line, and there the kind that is
//! tried first. `read` answers which of the two, exactly as two relations on whole files say it, and `one_reading` is
//! the law that no bytes are both or neither. The lines and tokens are those of `text_scan` and `lexeme_reader`, the
//! predicate of the question is that of `predicate_reader`, and the test is that of `litmus_syntax`, which holds the
//! limits.
#![tactic(auto)]

mod call_kinds;
mod calls;
mod draft;
mod fault;
mod keywords;
mod laws;
mod reading;
mod stages;
mod statements;

pub use fault::{LitmusFault, LitmusKind};
pub use laws::{one_reading, read_within_limits};
pub use reading::read;

#[cfg(test)]
mod tests;
