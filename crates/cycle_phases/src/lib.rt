//! Phases of waves and whole cycles over an agent's parts with a matcher, each as a course of steps.
#![tactic(auto)]

mod cycle;
mod phase;

pub use cycle::run_cycle;
pub use cycle_parts::{Engine, Kept, LearnedRule, Parts, Settings, Stop, Waved};
pub use phase::{Ended, run_phase};
