//! What comes with Ferrite. Of models there are `sequential`, under which all updates reach the disk in order, `ext4like`,
//! which keeps what a journaling file system of that kind keeps, and `loose`, which keeps nothing but what a `sync` orders.
//! Each is a text in the language of model files, which the contract gives byte by byte; a word names one of them or
//! none. `make` makes a litmus test of a seed, of up to 32 calls, so that a large input needs no file: its contract is the
//! test, call by call. It stands on the tests of `litmus_syntax` and on the generator of `rand_pcg`.
#![tactic(auto)]

mod generating;
mod texts;

pub use generating::make;
pub use texts::{ShippedModel, shipped};

#[cfg(test)]
mod tests;
