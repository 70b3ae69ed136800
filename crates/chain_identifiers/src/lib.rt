//! What firings and explanations tell of their identifiers: which are new, made, higher, or a goal's own.
#![tactic(auto)]

mod bindings;
mod constants;
mod grounds;
mod identifiers;
mod newness;
mod steps;

pub use bindings::{bindings_of, symbol_of};
pub use constants::{has_constant, is_among};
pub use identifiers::Identifiers;
pub use newness::is_new_in;
