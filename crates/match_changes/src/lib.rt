//! What a change of the conflict set is told as, and the trait of a matcher that tells it.
#![tactic(auto)]

mod changes;
mod key;

pub use changes::MatchChanges;
pub use key::MatchKey;
