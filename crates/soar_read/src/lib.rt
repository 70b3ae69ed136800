//! Productions from tokens: the tree that they spell, and what it means, one triple for each condition and action.
#![tactic(auto)]

mod actions;
mod conditions;
mod fault;
mod flags;
mod joining;
mod production;
mod read;

pub use fault::{ReadFault, SyntaxKind};
pub use read::read_production;
