//! The firings that explanations may still need, by number.
#![tactic(auto)]

mod record;

pub use record::Record;
