use defs_match::Rule;
use soar_sym::List;

/// A loaded rule, and the nodes that were asked for on the way of its conditions.
#[derive(Drop)]
pub struct Chain {
    pub rule: Rule,

    /// In the order in which they were asked for: the nodes inside a negation stand before it.
    pub nodes: List<usize>,

    /// The node that holds the rows of all conditions.
    pub last: usize,
}
