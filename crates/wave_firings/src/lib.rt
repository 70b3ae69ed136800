//! The firings of a wave, one after the other: what they make, and how they are recorded.
#![tactic(auto)]

mod firing;
mod gathering;
mod held;
mod scene;
mod turns;

pub use firing::{Fired, fire_all};
