use soar_sym::{List, Sym};

/// How a candidate is drawn where several are left (Soar manual, chapter 9, indifferent selection; whole numbers are this engine's).
#[derive(Clone, Copy, PartialEq, Eq)]
pub enum Mode {
    First,
    Last,
    Softmax,
    /// At random with the probability `p` of `q`, else the greatest.
    EpsilonGreedy { p: u32, q: u32 },
}

/// A candidate with the sum of its numeric preferences, and whether it has one.
#[derive(Clone, Copy, PartialEq, Eq)]
pub struct Scored {
    pub value: Sym,
    pub numeric: bool,
    pub sum: i64,
}

/// What the preferences of a slot leave, in symbol order.
#[derive(Drop)]
pub enum Choice {
    Left(List<Scored>),
    Tie(List<Scored>),
    Conflict(List<Scored>),
    Constraint(List<Scored>),
    NoCandidate,
}
