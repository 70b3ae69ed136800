//! The explanation of a firing of a wave: its results, which of its preferences go over, and the chain behind it.
#![tactic(auto)]

mod explained;
mod kept;
mod levels;
mod results;

pub use explained::{Explained, explain};
