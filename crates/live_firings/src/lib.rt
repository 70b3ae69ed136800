//! Firings that were not retracted yet, kept so that each call costs what it finds.
#![tactic(auto)]

mod firings;
mod index;
mod live;
mod reading;
mod store;

pub use firings::{LiveFirings, News};
pub use live::{Live, copy_of};
pub use soar_settle::Changes;
