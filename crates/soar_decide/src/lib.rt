//! What a goal comes to in a decision: its operator stays, another is selected, or there is an impasse.
#![tactic(auto)]

mod deciding;
mod drawing;
mod items;
mod maker;
mod outcome;
mod view;

pub use deciding::decide;
pub use outcome::Outcome;
pub use view::View;
