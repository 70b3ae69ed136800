//! Values with several owners, none of which changes them.
#![tactic(auto)]

mod shared;

pub use shared::Shared;
