//! A record of firings without those that no explanation needs.
#![tactic(auto)]

mod keeping;

pub use keeping::keep_only;
