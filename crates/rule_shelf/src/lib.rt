//! The rules of an agent, found by number, by name and by fingerprint.
#![tactic(auto)]

mod index;
mod rules;

pub use rules::Rules;
