//! What a step tells, and its lines at a watch level.
#![tactic(auto)]

mod decision;
mod fired;
mod output;
mod phase;
mod report;
mod settled;
mod text;
mod turns;

pub use decision::{say_goal_limit_at, say_selection_at, say_substate_at};
pub use output::say_outputs_at;
pub use phase::{begin_part, say_cut_at, say_halt_at};
pub use report::{Report, say_report};
pub use settled::{Removed, Settled, say_changes, say_removals, say_settled};
pub use turns::says_in_turn;
pub use wave_entries::CyclePart;
