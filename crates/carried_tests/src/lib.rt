//! The tests between identifiers that a learned rule takes over, and where they stand in it.
#![tactic(auto)]

mod carrying;
mod conditions;
mod firings;
mod occurring;
mod placing;

pub use carrying::{CarriedTest, carried};
pub use placing::{PlacedTest, placed};
