//! Settling that looks at what changed alone.
#![tactic(auto)]

mod laws;
mod leaving;
mod looking;
mod naming;
mod same;
mod settling;
mod stages;

pub use laws::{changes_are_tracked, rest_is_kept};
pub use settling::settle_changes;
