//! A question as clauses. For each node of the predicate a variable says its truth after a crash; an atom reads which file
//! its path's slot holds, and of each candidate whether its cells have what is asked. With the clauses of crashes and of
//! last writers these make one formula, which `code` writes straight into one store. Its contract is the theorem: values
//! make the clauses true only if the crash that is decoded of them answers the question, and every crash that answers it
//! has such values. It stands on `order_coding` and `value_coding`.
#![tactic(auto)]

mod asked;
mod atoms;
mod choices;
mod coding;
pub mod examples;
mod fitting;
pub mod laws;
mod nodes;
mod reading;
mod slots;

pub use asked::Asked;
pub use coding::{Coded, code};
