//! Copies of conditions, with other atoms in the places of theirs.
#![tactic(auto)]

mod copying;
mod replacing;

pub use copying::{add_copies, cond_with, conds_with};
pub use replacing::Replaces;
