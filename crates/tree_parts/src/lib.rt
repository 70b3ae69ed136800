//! The trees of productions, and readers of their parts: tokens, flags, fields, values and preferences.
#![tactic(auto)]

mod action;
mod condition;
mod field;
mod front;
mod meaning;
mod production;
mod reader;
mod stop;

pub use action::{ActionTree, AttributeMake, Compared, ItemTree, MakeTree, Term, WishTree};
pub use condition::{AttributeTest, Group, Part, ValueTest};
pub use field::{Alternatives, Braced, Constant, FieldTree, Simple, Single, Tested};
pub use front::{MINUS, PLUS, begins_field, begins_mark, begins_part, begins_test, opens};
pub use production::{Flag, Tree};
pub use reader::Reader;
pub use stop::Stop;
