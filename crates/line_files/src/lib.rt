//! Files of lines.
#![tactic(auto)]

mod fault;
mod reading;

pub use fault::{FileFault, LineFault, SharedFault};
pub use reading::{MOST_BYTES, TakeLine, take_lines};

#[cfg(test)]
mod tests;
