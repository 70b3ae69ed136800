//! The lines of the trace that a run shows at watch levels above 1.
#![tactic(auto)]

mod cause;
mod dropped;
mod element;
mod firing;
mod lesson;
mod level;
mod line;
mod part;
mod removal;
mod wish;

pub use dropped::say_drop;
pub use element::{say_gone, say_new};
pub use firing::{say_firing, say_retraction};
pub use lesson::{LearnedFiring, Lesson, say_lesson};
pub use part::{CyclePart, say_part};
pub use removal::say_removal;
pub use wish::{HeldBy, say_wish};
