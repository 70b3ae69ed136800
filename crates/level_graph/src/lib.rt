//! Levels told along links, until none can fall any more.
#![tactic(auto)]

mod building;
mod links;
mod marks;
mod spreading;

pub use building::{add_triples, from_last, tell_goals};
pub use links::Links;
pub use marks::Marks;
pub use spreading::spread;
