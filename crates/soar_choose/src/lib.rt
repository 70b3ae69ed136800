//! The choice among the values of a slot, and the draw among those that are left.
#![tactic(auto)]

mod beaten;
mod choosing;
mod drawing;
mod indifference;
mod kinds;
mod laws;
mod merging;
mod pairs;
mod rows;
mod sums;
mod values;

pub use choosing::choose;
pub use defs_soar::{Choice, Mode, Scored};
pub use drawing::draw;
pub use laws::choice_laws;
