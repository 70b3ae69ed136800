//! What waits for an agent: recorded changes of its inputs, and random words.
#![tactic(auto)]

mod changes;
mod inputs;
mod queued;
mod random;

pub use changes::make_changes;
pub use inputs::changed_inputs;
pub use queued::Queued;
pub use random::{RandomWords, drop_word};
