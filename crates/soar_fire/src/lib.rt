//! What a rule makes when it fires: its actions, one after the other, and the functions that they call.
#![tactic(auto)]

mod action;
mod arithmetic;
mod bindings;
mod fault;
mod firing;
mod functions;
mod judging;
mod plain;
mod scene;
mod value;
mod wish;

pub use fault::FireFault;
pub use firing::fire;
