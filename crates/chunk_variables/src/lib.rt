//! What has a variable in a learned rule, the names of these variables, and the rule's actions with them.
#![tactic(auto)]

mod actions;
mod given;
mod naming;
mod occurrence;
mod variables;

pub use actions::actions_of;
pub use given::Given;
pub use occurrence::variables_in;
pub use variables::Variables;
