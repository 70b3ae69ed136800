//! The tags of rows as keys of ordered maps, compared by their first two where these differ.
#![tactic(auto)]

mod tags;

pub use tags::RowTags;
