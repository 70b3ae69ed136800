//! The tags of the elements on which goals depend, as tables.
#![tactic(auto)]

mod adding;
mod finding;
mod tables;

pub use tables::Dependencies;
