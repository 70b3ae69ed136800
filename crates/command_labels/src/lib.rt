//! The labels of commands, found by name.
#![tactic(auto)]

mod label;
mod labels;

pub use label::Label;
pub use labels::Labels;
