//! The rule that an explanation gives, in both forms, and why it may be none.
#![tactic(auto)]

mod causes;
mod drafts;
mod fault;
mod findings;
mod forms;
mod making;
mod sizes;
mod words;

pub use chunk_grounds::ungrounded;
pub use chunk_results::results;
pub use fault::MakeFault;
pub use making::candidate;
