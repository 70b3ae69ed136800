//! What a run of the program means: commands, the state of a session, and the transcript.
#![tactic(auto)]

mod form;

pub use form::{Addition, Operand, Order};
