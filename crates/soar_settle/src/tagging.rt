// Elements that give way to others, in the order of triples and within the limits of working memory.
mod comparing;
mod limits;
mod merging;
mod ordering;
mod replacing;

pub use crate::tagging::limits::limit_passed;
pub use crate::tagging::ordering::in_order;
pub use crate::tagging::replacing::replace;
