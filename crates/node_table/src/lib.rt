//! The table of nodes: shared by parent and step, counted by requests, and what serving one of them comes to.
#![tactic(auto)]

mod dropping;
mod filling;
mod hearing;
mod instances;
mod making;
mod node;
mod readying;
mod requests;
mod serving;

pub use dropping::drop_node;
pub use instances::tokens;
pub use making::make;
pub use node::{Hears, Node, NodeKey, Step};
pub use requests::ask_again;
pub use serving::serve;
