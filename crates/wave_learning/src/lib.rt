//! What a wave learns from its firings, and the rules with their explanations.
#![tactic(auto)]

mod candidates;
mod firings;
mod going;
mod hand;
mod holding;
mod joining;
mod learning;
mod named;
mod program;
mod rounds;
mod rules;
mod scene;
mod teaching;

pub use hand::AtHand;
pub use learning::learn;
pub use program::{LearnedRule, Program};
pub use wave_entries::{Entry, Told, WaveMade, made_of};
