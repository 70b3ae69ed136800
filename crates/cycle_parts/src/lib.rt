//! An agent's parts with a matcher that holds its rules and working memory: the steps of a cycle, and the calls by which
//! a session works.
#![tactic(auto)]

mod deciding;
mod dropping;
mod engine;
mod excising;
mod fresh;
mod input_phase;
mod inputs;
mod loading;
mod output_phase;
mod queues;
mod restarting;
mod retelling;
mod settings;
mod settling;
mod taking;
mod telling;
mod triples;
mod waving;

pub use decision_parts::{CyclePart, Kept, LearnedRule, Parts, Settings, Stop};
pub use engine::Engine;
pub use outstanding::Outstanding;
pub use step_report::{begin_part, say_cut_at};
pub use waving::Waved;
