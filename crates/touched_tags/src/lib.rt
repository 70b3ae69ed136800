//! Working memory made to hold what is kept, by the triples that were looked at alone.
#![tactic(auto)]

mod changed_goals;
mod judging;
mod kept_set;
mod looking;
mod planning;
mod retagging;
mod tag_order;

pub use kept_set::KeptSet;
pub use retagging::retag_touched;
