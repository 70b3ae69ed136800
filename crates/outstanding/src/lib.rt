//! What is outstanding in a conflict set: instances that no live firing has, and live firings whose instances are gone.
#![tactic(auto)]

mod answer;
mod asking;
mod compared;
mod comparing;
mod followed;
mod following;
mod instances;
mod telling;

pub use answer::{Open, Outstanding};
pub use compared::Compared;
pub use comparing::compare;
pub use followed::Followed;
pub use live_firings::Live;
