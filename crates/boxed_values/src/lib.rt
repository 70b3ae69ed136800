//! Values on the heap with one owner, so that what holds many of them stays small.
#![tactic(auto)]

mod boxed;

pub use boxed::Boxed;
