//! Settling, and the removal of the goals that lost something they depend on.
#![tactic(auto)]

mod broken;
mod trimming;

pub use touched_tags::retag_touched;
pub use trimming::trim;
