//! A step of the replay of an explanation: whether it goes again with what is known.
#![tactic(auto)]

mod elements;
mod fields;
mod known;
mod lookup;
mod passing;
mod replay;

pub use replay::replay_step;
