//! Which event wrote last what a question reads. A cell is a slot, a file's size, a file's attribute, or a run of a
//! file's bytes that every event writes together. After any events, in any order, a cell holds what the last of them that
//! writes it gave it: that is a law on the definitions alone. `code_cells` writes, behind the clauses of crashes, those
//! that say of each cell which of its writers is the last one before the cut; every crash has values that make them true,
//! and values that do name the value that the cell has after the crash. The value calls answer what a writer gives. It
//! stands on `order_coding`.
#![tactic(auto)]

mod cell;
mod cells;
mod coding;
pub mod examples;
mod last_clauses;
pub mod laws;
mod marking;
mod reading;
mod values;
mod writers;

pub use cell::{Cell, Cells, CodedCell};
pub use coding::code_cells;
pub use reading::{Part, Reading, may_hold};
pub use values::{attr_value, has_text, size_value, slot_value};
