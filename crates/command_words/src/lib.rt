//! The words of the command line, read as what they ask for.
#![tactic(auto)]

mod command;
mod given;
mod number;
mod options;
mod words;

pub use options::Options;
pub use words::read_options;
