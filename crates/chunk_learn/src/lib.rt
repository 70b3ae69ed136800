//! What becomes of a candidate: a chunk, a rule that is there, a justification with its cause, or nothing; and a step
//! of the replay of an explanation.
#![tactic(auto)]

mod actions;
mod blocking;
mod bodies;
mod causes;
mod forms;
mod outcomes;
mod sizes;
mod stale;

pub use chunk_replay::replay_step;
pub use outcomes::outcome;
