//! What a change of its parent's rows and of the elements makes of a join.
#![tactic(auto)]

mod join;
mod law;
mod serve;

pub use join::constants_of;
pub use law::{constants_leave_out, join_rests, join_serves, prefix_joins, rows_are_one_each};
pub use serve::{come_to_join, go_from_join, joined_of, serve_join};
