//! What a firing made for higher goals, with what hangs on it.
#![tactic(auto)]

mod before;
mod closure;
mod firing_results;
mod hanging;
mod linking;

pub use firing_results::{results, taken_over};
