//! Preference memory.
#![tactic(auto)]

mod event;
mod fault;
mod index;
mod journal;
mod key;
mod packed;
mod places;
mod prefs;
mod same;
mod store;

pub use defs_soar::{PrefKind, Preference, Wish};
pub use fault::PrefFault;
pub use packed::PackedPreference;
pub use prefs::Prefs;
