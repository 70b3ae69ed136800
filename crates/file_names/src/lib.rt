//! The names of files that commands ask for: the bytes behind the command's word up to a comment, without the blanks at their ends.
#![tactic(auto)]

mod blanks;
mod comment;
mod name;
mod word;

pub use name::{NameFault, file_name};
pub use word::first_run;
