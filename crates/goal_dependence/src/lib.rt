//! Which elements goals depend on, as waves add to it.
#![tactic(auto)]

mod constants;
mod counting;
mod finding;
mod joining;
mod locality;
mod newness;
mod remembering;
mod wave_record;

pub use finding::tags_found;
pub use remembering::remember;
