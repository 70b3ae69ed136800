use defs_soar::PrefKind;
use soar_sym::Sym;

/// A row that came or went. Its fields stand side by side, the largest first, so that an event takes little room: for
/// each row there is room for one.
#[derive(Clone, Copy)]
pub struct Event {
    /// The number of the row.
    pub number: u64,

    pub firing: u64,
    pub id: Sym,
    pub attr: Sym,
    pub value: Sym,
    pub referent: Option<Sym>,
    pub kind: PrefKind,
    pub operator_support: bool,

    /// Whether it came.
    pub came: bool,
}
