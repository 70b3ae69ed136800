use soar_wm::{List, Sym};

/// A match of a rule: the tags of its elements in the order of the conditions that took them,
/// and what its variables stand for, in the order in which they were bound.
#[derive(Drop)]
pub struct Instance {
    pub rule: u64,
    pub tags: List<u32>,
    pub binds: List<Sym>,
}
