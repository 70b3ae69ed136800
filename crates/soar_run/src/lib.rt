//! The run of an input: its commands in order, what they say, and how it ends.
#![tactic(auto)]

mod cycles;
mod speaker;
mod step;
mod top;

pub use top::run_soar;
