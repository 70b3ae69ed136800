//! The session: an agent with the labels of its commands, and what a command or a cycle does and says.
#![tactic(auto)]

mod adding;
mod excising;
mod explaining;
mod inputs;
mod labels;
mod listing;
mod loading;
mod lookup;
mod orders;
mod outcome;
mod queueing;
mod refusing;
mod removing;
mod restarting;
mod running;
mod session;
mod settings;
mod slots;
mod standing;
mod state;
mod tables;

pub use command_labels::{Label, Labels};
pub use outcome::Outcome;
pub use soar_cycle::{Settings, Standing, Stop};
pub use state::Session;
