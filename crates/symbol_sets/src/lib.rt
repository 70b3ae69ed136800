//! Sets of symbols.
#![tactic(auto)]

mod set;

pub use set::SymbolSet;
