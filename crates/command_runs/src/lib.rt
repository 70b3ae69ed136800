//! Commands in a row, and the files that they ask for, over whatever carries one command out.
#![tactic(auto)]

mod carrier;
mod course;
mod ends;
mod fault;
mod files;
mod input;
mod opening;
mod progress;
mod reading;
mod step;
mod stream;
mod turn;
mod whole;

pub use carrier::{Answered, Carrier, Next, Unread};
pub use whole::run_whole;
