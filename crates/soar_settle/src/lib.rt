//! What a step leaves of preference memory, and what it makes of working memory.
#![tactic(auto)]

mod changes;
mod goal_elements;
mod renewal;
mod stop;
mod tagging;
mod triples;

pub use changes::Changes;
pub use goal_elements::{add_goal_elements, plain_triple};
pub use renewal::renew;
pub use soar_prefs::Prefs;
pub use stop::Stop;
pub use tagging::{in_order, limit_passed, replace};
pub use triples::TripleSet;
