//! The chain of firings behind others.
#![tactic(auto)]

mod chain;
mod copy;
mod named;
mod naming;
mod parts;
mod steps;
mod tagged;
mod waiting;
mod walk;

pub use chain::{backtrace, grounds};
pub use walk::numbers_behind;
