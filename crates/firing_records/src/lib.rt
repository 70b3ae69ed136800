//! Firings as they are recorded, with how they used their elements.
#![tactic(auto)]

mod among;
mod before;
mod constants;
mod makers;
mod outcome;
mod own;
mod recording;
mod uses;
mod ways;

pub use among::goals_of;
pub use before::Before;
pub use kept_triples::Kept;
pub use outcome::Recorded;
pub use recording::recorded;
pub use soar_levels::operator_kind;
