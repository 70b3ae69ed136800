use soar_rule::Production;
use soar_sym::Sym;

/// Why a result is justified and no chunk is learned. A number is that of a firing, or what is too large.
#[derive(Clone, Copy, PartialEq, Eq)]
pub enum Cause {
    NoGrounds,
    Off,
    LocalNegation(u64),
    Quiescence(u64),
    Ungrounded(Sym),
    TooLarge(u32),
    TooMany(u32),
}

/// What learning from an explanation came to. `Lost` carries the tag of a ground that is gone,
/// `Blocked` the place of a negation and the tag of the element that blocks it.
#[derive(Drop)]
pub enum Learned {
    Chunk(Production),
    Reused(Sym),
    Justified(Option<Production>, Cause),
    Lost(u32),
    Blocked(u32, u32),
}

/// The two forms of a learned rule, as far as they are there, the first cause against the general one, and the first
/// identifier that has no variable in it.
#[derive(Drop)]
pub struct Candidate {
    pub general: Option<Production>,
    pub literal: Option<Production>,
    pub cause: Option<Cause>,
    pub ungrounded: Option<Sym>,
}

/// Whether learning is on, whether local negations are allowed, and how many chunks this cycle learned.
#[derive(Clone, Copy, PartialEq, Eq)]
pub struct Learning {
    pub on: bool,
    pub local_negations: bool,
    pub learned: u32,
}
