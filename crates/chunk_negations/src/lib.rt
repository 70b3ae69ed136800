//! The negations of an explanation that a learned rule takes over, and those that it cannot.
#![tactic(auto)]

mod binding;
mod equality;
mod higher;
mod local;
mod meeting;
mod own;
mod taking;

pub use equality::same_conds;
pub use local::local_negation;
pub use taking::taken_over;
