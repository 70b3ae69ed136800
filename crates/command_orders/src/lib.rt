//! Orders: what the arguments of a command ask for, by the form that its word has.
#![tactic(auto)]

mod addition;
mod argument;
mod form;
mod name;
mod number;
mod operand;
mod print;
mod settings;
mod slot;

pub use addition::{addition_order, input_order};
pub use argument::{Argument, arguments_behind};
pub use form::{Form, form_of, is_word};
pub use name::{excise_order, explain_order, matches_order};
pub use number::{elaborations_order, removal_order, run_order, watch_order};
pub use print::printing_order;
pub use settings::{chunk_order, selection_order};
pub use slot::slot_order;
