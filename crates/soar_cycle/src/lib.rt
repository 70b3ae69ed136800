//! An agent over any matcher: waves, phases, decisions and cycles, and the calls by which a session works.
#![tactic(auto)]

mod agent;
mod calls;
mod counts;
mod explaining;
mod levels;
mod program;
mod running;
mod standing;
mod telling;

pub use agent::Agent;
pub use counts::Counts;
pub use cycle_phases::{Ended, Settings, Stop, Waved};
pub use standing::Standing;
pub use trace_lines::Phase;
