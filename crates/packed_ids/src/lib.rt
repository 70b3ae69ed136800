//! The letter and number of an identifier in eight bytes, as the keys of maps.
#![tactic(auto)]

mod id;

pub use id::PackedId;
