//! Commands read: what the tokens of a command ask for, or why it is refused.
#![tactic(auto)]

mod fault;
mod order;
mod random;
mod read;
mod refused;
mod source;

pub use fault::{CmdFault, Shown};
pub use read::read_command;
