// A node of the network.
use match_row::Row;
use node_memory::Memory;
use soar_rule::Pattern;
use soar_sym::List;

/// What a node makes of the rows of its parent.
#[derive(Drop, PartialEq, Eq, PartialOrd, Ord)]
pub enum Step {
    /// It extends each row by each element that fits.
    Join(Pattern),

    /// It keeps the rows with which no row of this node begins.
    Negation(usize),
}

/// What makes a node the one that it is.
#[derive(Drop, PartialEq, Eq, PartialOrd, Ord)]
pub struct NodeKey {
    pub parent: usize,
    pub step: Step,
}

/// What a node hears of. What can't change its rows it may leave out, but not both.
#[derive(Clone, Copy)]
pub struct Hears {
    /// The rows that come to the nodes that it reads, and those that go from them.
    pub rows: bool,

    /// The elements that its pattern takes.
    pub elements: bool,
}

/// A node: its rows, and what the last change that it served made of them. The root has no key.
#[derive(Drop)]
pub struct Node {
    pub key: Option<NodeKey>,

    /// How many elements a row has.
    pub tags: usize,

    /// When it was made, counted in nodes.
    pub made: u64,

    /// The last change that it served.
    pub stamp: u64,

    /// The number of its pattern memory, where it is a join.
    pub alpha: usize,
    pub hears: Hears,
    pub requests: u64,
    pub memory: Memory,
    pub come: Vec<Row>,
    pub gone: Vec<List<u32>>,
}
