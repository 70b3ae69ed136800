use crate::action::ActionTree;
use crate::condition::Part;
use soar_sym::{List, Sym, Text};

/// A flag in front of the conditions.
#[derive(Clone, Copy)]
pub enum Flag {
    OperatorSupport,
    InstanceSupport,
    Default,
    Chunk,
}

/// The tree of a production. `bare` tells that its name stands without bars.
#[derive(Drop)]
pub struct Tree {
    pub name: Sym,
    pub bare: bool,
    pub doc: Option<Text>,
    pub flags: List<Flag>,
    pub part: Part,
    pub parts: List<Part>,
    pub actions: List<ActionTree>,
}
