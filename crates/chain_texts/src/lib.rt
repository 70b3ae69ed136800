//! The texts of preferences, of numbered instances and of explanations.
#![tactic(auto)]

mod chain;
mod numbered;
mod sign;
mod step;
mod wish;

pub use chain::show_chain;
pub use numbered::numbered_text;
pub use wish::show_wish;
