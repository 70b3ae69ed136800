//! The matcher by enumeration: each production is matched afresh against all elements.
#![tactic(auto)]

mod contents;
mod direct;
mod enumeration;

pub use direct::Direct;
pub use enumeration::conflict;
