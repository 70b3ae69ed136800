//! The first identifier of an explanation that would need a variable and has none.
#![tactic(auto)]

mod leading;
mod negations;
mod parts;
mod results;
mod unplaced;

pub use parts::ungrounded;
