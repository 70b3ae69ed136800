//! What a change of its parent's rows and of the rows of its inside makes of a negation.
#![tactic(auto)]

mod law;
mod negation;

pub use law::{negation_is_kept, negation_serves};
pub use negation::{add_all_kept, come_to_negation, go_from_negation, serve_negation};
