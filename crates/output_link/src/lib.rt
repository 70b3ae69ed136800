//! What the output link shows, and what is new there and what is gone.
#![tactic(auto)]

mod changes;
mod shown;
mod walking;

pub use changes::{OutputChanges, output_changes};
pub use shown::output_of;
