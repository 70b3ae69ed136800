//! What a wave at hand holds: firings with how their preferences are held, and what learning told; and what they leave.
#![tactic(auto)]

mod ending;
mod entry;
mod firing;

pub use ending::{WaveMade, made_of};
pub use entry::{Entry, Fresh, Heading, HeldWish, Told};
pub use firing_records::{Before, Recorded, goals_of, operator_kind, recorded};
pub use live_firings::{Changes, Live};
pub use trace_details::{
    CyclePart, HeldBy, Lesson, say_drop, say_firing, say_gone, say_lesson, say_new, say_part,
    say_removal, say_retraction, say_wish,
};
