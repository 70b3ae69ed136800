//! The matcher over a network: rules that begin alike share their nodes, and each change of an element reaches only what it touches.
#![tactic(auto)]

mod asking;
mod chain;
mod dropping;
mod loaded;
mod net;
mod reading;
mod telling;
mod told;

pub use net::Net;
