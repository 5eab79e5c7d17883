//! Crashes as values of variables. Of n events, a variable says of each whether it reached the disk before the crash,
//! and one of each two which of them comes first. Four families of clauses are true of exactly the values of crashes:
//! kept pairs stand in order, no three events are in a cycle, the events that are in are the first ones of the order,
//! and no transaction is split. `code_order` writes these clauses, `decode` makes a crash of values that make them
//! true. That a choice for each two without cycles of three is a linear order is proved for every number of events.
//! It stands on clauses, on events and on the list type.
#![tactic(auto)]

mod decoded;
mod families;
pub mod laws;
mod variables;

pub use decoded::decode;
pub use families::code_order;
pub use variables::{before_lit, in_var};

#[cfg(test)]
mod tests;
