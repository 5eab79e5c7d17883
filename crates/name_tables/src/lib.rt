//! Numbers by first use. What a file program names gets numbers from 0 on, in the order in which it is first named:
//! texts and paths as they are (`Numbered`), and names in directories (`SlotTable`). Contracts see a table as the list
//! of its entries, and a number as the place of an entry in it. A look-up takes no memory and goes through no list. It
//! stands on `indexmap`.
#![tactic(auto)]

mod numbered;
mod slot_table;

pub use numbered::Numbered;
pub use slot_table::SlotTable;
