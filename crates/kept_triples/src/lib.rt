//! The triples that are held, kept up under changes, with the levels over them.
#![tactic(auto)]

mod held;
mod kept;
mod laws;
mod looking;
mod own;
mod triples;

pub use kept::Kept;
pub use laws::kept_levels_are_levels;
pub use own::Own;
pub use soar_settle::{Prefs, TripleSet, add_goal_elements};
