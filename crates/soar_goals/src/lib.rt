//! The stack of goals.
#![tactic(auto)]

mod fault;
mod goals;
mod stack;

pub use defs_soar::{Goal, Impasse, Item, Selection};
pub use fault::GoalFault;
pub use goals::Goals;
