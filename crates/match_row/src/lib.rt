//! Rows of partial matches: one element against the pattern of a condition, and the rows that conditions make.
#![tactic(auto)]

mod extension;
mod row;
mod taking;
mod testing;

pub use extension::{add_extended, rows, rows_from};
pub use row::Row;
pub use taking::{add_by_element, takes, takes_marks};
pub use testing::{contains_symbol, stands, symbol_of};
