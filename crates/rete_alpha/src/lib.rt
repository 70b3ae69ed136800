//! Pattern memories: for each pattern of constants the tags of the elements that it takes.
#![tactic(auto)]

mod alpha;
mod elements;
mod numbers;
mod pattern;
mod requests;
mod shapes;
mod slots;
mod tags;

pub use alpha::Alpha;
pub use pattern::ConstPattern;
pub use tags::Tags;
