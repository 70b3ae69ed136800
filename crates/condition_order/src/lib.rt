//! The order of a learned rule's positive conditions, and which identifiers have a variable in it.
#![tactic(auto)]

mod comparing;
mod order;
mod ordering;
mod places;
mod reaching;
mod states;

pub use ordering::{GroundOrder, ordered};
