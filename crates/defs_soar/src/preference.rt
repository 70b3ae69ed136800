ghost use Rattle.std.specs.Prelude.{◌≡◌};
ghost use Rattle.defs_soar.specs.Values.{is_kind, kind_place};

use soar_sym::Sym;

/// What a preference says of its value, in the order in which kinds are listed (Soar manual, chapter 2, preference semantics).
#[derive(Clone, Copy, PartialEq, Eq)]
pub enum PrefKind {
    /// `+`
    Accept,
    /// `!`
    Require,
    /// `-`
    Reject,
    /// `~`
    Prohibit,
    /// `>` with a referent
    Better,
    /// `<` with a referent
    Worse,
    /// `>`
    Best,
    /// `<`
    Worst,
    /// `=`
    Indifferent,
    /// `=` with an integer
    Numeric,
    /// `=` with an identifier
    IndifferentTo,
}

impl PrefKind {
    /// Whether two kinds are one.
    pub fn is(self, other: PrefKind) -> bool
        ensures { result ≡ is_kind self other }
    {
        self.place() == other.place()
    }

    /// The place of a kind in their order.
    fn place(self) -> u8
        ensures { result ≡ kind_place self }
    {
        match self {
            PrefKind::Accept => 0,
            PrefKind::Require => 1,
            PrefKind::Reject => 2,
            PrefKind::Prohibit => 3,
            PrefKind::Better => 4,
            PrefKind::Worse => 5,
            PrefKind::Best => 6,
            PrefKind::Worst => 7,
            PrefKind::Indifferent => 8,
            PrefKind::Numeric => 9,
            PrefKind::IndifferentTo => 10,
        }
    }
}

/// A preference as an action asks for it.
#[derive(Clone, Copy, PartialEq, Eq)]
pub struct Wish {
    pub id: Sym,
    pub attr: Sym,
    pub value: Sym,
    pub kind: PrefKind,
    pub referent: Option<Sym>,
}

/// A row of preference memory: what a firing asked for, and whether it has operator support.
#[derive(Clone, Copy, PartialEq, Eq)]
pub struct Preference {
    pub firing: u64,
    pub wish: Wish,
    pub operator_support: bool,
}
