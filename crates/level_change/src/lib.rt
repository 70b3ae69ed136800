//! Levels that are kept while triples and goals come and go.
#![tactic(auto)]

mod anew;
mod counting;
mod forgetting;
mod goals;
mod graph;
mod laws;
mod levels;
mod links;
mod passing;
mod place;
mod renewing;
mod seeds;
mod spreading;
mod store;
mod told;

pub use graph::LevelGraph;
pub use laws::levels_are_told;
