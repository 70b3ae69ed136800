//! Parts of an expansion: names of variables, fields, groups of tests, values and preferences.
#![tactic(auto)]

mod condition_lists;
mod fields;
mod groups;
mod names;
mod source;
mod terms;
mod uses;

pub use condition_lists::{append_conditions, one_condition, signed};
pub use fields::{copy_field, field, plain_field};
pub use groups::group;
pub use names::{Name, Names, fresh, named, new_name};
pub use source::Source;
pub use terms::{copy_value, preference, value, values};
pub use uses::{Uses, uses_of};
