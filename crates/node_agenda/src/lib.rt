//! The nodes that a change reaches, served in the order in which they were made.
#![tactic(auto)]

mod agenda;
mod linking;
mod relinking;
mod turns;

pub use agenda::{add_under, settle};
pub use linking::{forget_taker, unlink_node};
pub use relinking::relink;
pub use turns::{Turn, TurnIndex, TurnKey};
