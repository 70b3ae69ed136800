//! The inputs of an agent.
#![tactic(auto)]

mod index;
mod inputs;
mod key;
mod place;
mod store;

pub use inputs::Inputs;
