//! The rule that an explanation gives, with its identifiers as variables or as they are.
#![tactic(auto)]

mod conditions;
mod form;
mod variablization;

pub use conditions::conditions_of;
pub use form::Form;
pub use variablization::form_of;
