//! The network of joins and negations: each node holds the rows of the conditions on the way to it.
#![tactic(auto)]

mod asking;
mod changing;
mod dropping;
mod joins;
mod network;
mod reading;

pub use joins::Joins;
