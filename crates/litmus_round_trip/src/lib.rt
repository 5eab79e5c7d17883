//! Printing and reading fit together: the canonical text of each litmus test is read as that test, lines apart, and as
//! nothing else. The crate is one law over the definitions of both sides; its proof goes from bytes to tokens, from
//! tokens to what they say, and from there to statements and predicates. It stands on the grammar of `litmus_reader` and
//! on the canonical text of `litmus_syntax`, and on no code of theirs.
#![tactic(auto)]

mod laws;

pub use laws::reads_back;
