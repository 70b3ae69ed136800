//! A number for the body of a production, by which those that may have the same body are found.
#![tactic(auto)]

mod actions;
mod conditions;
mod symbols;
mod whole;

pub use whole::fingerprint;
