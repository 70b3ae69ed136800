//! Triples in 32 bytes, as the keys of hash tables.
#![tactic(auto)]

mod symbol;
mod triple;

pub use symbol::{Kind, kind_of, number_of, symbol_at};
pub use triple::PackedTriple;
