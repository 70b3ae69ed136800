//! What commands that look at an agent list: preferences, productions, explanations, elements,
//! matches and counts, as lines of text.
#![tactic(auto)]

mod chain;
mod chunks;
mod elements;
mod line;
mod matches;
mod order;
mod preferences;
mod rules;
mod stats;
mod texts;
mod wish;

pub use chain::list_chain;
pub use chunks::list_chunks;
pub use elements::list_elements;
pub use matches::list_matches_of;
pub use preferences::list_preferences;
pub use rules::list_rules;
pub use stats::{Stats, say_stats};
pub use wish::show_wish;
