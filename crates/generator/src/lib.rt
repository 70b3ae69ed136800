//! The script by which the engine is measured: items in a row, each with its kind and the next one, of which every second
//! link then goes.
#![tactic(auto)]

mod items;
mod removals;
mod text;
mod whole;

pub use whole::{MOST_ITEMS, script};
