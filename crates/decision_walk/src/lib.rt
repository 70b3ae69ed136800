//! The walk of a decision from the top goal down.
#![tactic(auto)]

mod decided;
mod laws;
mod stepping;
mod walking;

pub use decided::Decided;
pub use laws::walks_keep_goals;
pub use soar_decide::View;
pub use walking::walk;
