//! Which identifiers the goals reach, how deep, and whether a firing has operator support.
#![tactic(auto)]

mod binding;
mod changes;
mod constants;
mod levels;
mod support;
mod taken;

pub use levels::Levels;
pub use support::operator_kind;
pub use taken::match_depth;
