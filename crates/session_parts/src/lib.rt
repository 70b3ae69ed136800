//! What a session is made of: labels, identifiers as commands name them, reasons of refusals, and lines of text.
#![tactic(auto)]

mod elements;
mod letters;
mod lookup;
mod origin;
mod reasons;
mod refusing;
mod reserved;
mod rules;
mod said;
mod slot;
mod stopping;
mod texts;
mod unknown;

pub use elements::{element_of, triple_of};
pub use letters::letter_from;
pub use lookup::Lookup;
pub use origin::Origin;
pub use reasons::Reason;
pub use refusing::say_refusal;
pub use said::{say_elements_of, say_matches, say_production};
pub use slot::Slot;
pub use soar_cmd::{CmdFault, read_command};
pub use stopping::say_stop;
