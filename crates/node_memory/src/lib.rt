//! The rows of a node and the elements of working memory, kept so that each side of a join finds its partners by index.
#![tactic(auto)]

mod index;
mod indexing;
mod key;
mod memory;
mod packed;
mod symbols;

pub use index::ElementIndex;
pub use indexing::{all_rows, index_by};
pub use memory::{Memory, add_found, change, empty, filled, rows_with};
pub use packed::PackedSymbolKey;
pub use symbols::{Joined, SymbolIndex, SymbolKey, Symbols};
