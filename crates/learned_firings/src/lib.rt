//! What a learned rule brings into a wave: its name, its firing at the elements of its conditions, and how the
//! preferences are held that it takes over.
#![tactic(auto)]

mod counts;
mod deciding;
mod entry;
mod firing;
mod flags;
mod identifiers;
mod names;

pub use counts::next_count;
pub use entry::learned_entry;
pub use firing::learned_firing;
pub use flags::hold_flagged;
pub use identifiers::identifiers_of;
pub use names::{LearnedName, new_name};
