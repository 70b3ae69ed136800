//! What is open in a conflict set, kept by key: what changed is noted, and looked at again.
#![tactic(auto)]

mod counts;
mod kept;
mod keys;
mod leaving;
mod looking;
mod meeting;
mod reading;
mod telling;

pub use kept::Kept;
pub use keys::{copy_of, key_of};
pub use leaving::leave_rule;
pub use looking::look_at;
pub use meeting::{lose, meet};
pub use reading::{open_is_ordered, unfired};
pub use telling::{renew, told};
