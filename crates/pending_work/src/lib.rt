//! What is pending in an agent: the firings to retract and the instances to fire, of the least level that has any.
#![tactic(auto)]

mod active;
mod candidates;
mod work;

pub use outstanding::Open;
pub use work::{Work, pending};
