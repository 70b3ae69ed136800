//! The texts of symbols, instances, elements and productions.
#![tactic(auto)]

mod actions;
mod bare;
mod conditions;
mod element;
mod fields;
mod instance;
mod names;
mod production;
mod symbol;
mod word;

pub use bare::{identifier_number, is_identifier_form};
pub use element::show_element;
pub use instance::{push_tags, show_instance};
pub use production::show_production;
pub use symbol::{show_symbol, symbol_text};
