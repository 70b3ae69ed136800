// Triples as an index keeps them.
ghost use Rattle.std.specs.Prelude.{◌≡◌, Some, refl};
ghost use Rattle.std.specs.Cmp.{eq_by_cmp_equiv, partial_equiv_from_equiv, partial_order_from_agreeing_total};
ghost use Rattle.std.specs.Ordering.{eq_by_cmp};
ghost use Rattle.input_memory.specs.Order.{attr_cmp, place_cmp, place_total, rest_cmp, value_cmp};
ghost use Rattle.input_memory.specs.Place.{edge, kind_at, kind_number, place_of, triple_of, IsTold, IsToldSymbol};

use packed_triples::{Kind, kind_of, number_of, symbol_at};
use soar_sym::{Sym, Triple};
use std::cmp::Ordering;

/// A triple as the index keeps it, in 32 bytes: each symbol is a number with the number of its kind.
#[derive(Clone, Copy)]
pub struct Place {
    pub id: i64,
    pub attr: i64,
    pub value: i64,
    pub id_kind: u8,
    pub attr_kind: u8,
    pub value_kind: u8,
    pub accept: bool,
}

const _: () = prove!(size_of::<(Place, u64)>() == 40);

impl Place {
    fn cmp_attr(&self, other: &Place) -> Ordering
        ensures { result ≡ attr_cmp self.now other.now }
    {
        self.attr_kind
            .cmp(&other.attr_kind)
            .then(self.attr.cmp(&other.attr))
    }

    fn cmp_value(&self, other: &Place) -> Ordering
        ensures { result ≡ value_cmp self.now other.now }
    {
        let kinds = self.value_kind.cmp(&other.value_kind);
        self.value
            .cmp(&other.value)
            .then(kinds)
            .then(self.accept.cmp(&other.accept))
    }

    /// How places of one identifier compare: at once by the numbers of attributes of one kind, where these differ.
    fn cmp_rest(&self, other: &Place) -> Ordering
        ensures { result ≡ rest_cmp self.now other.now }
    {
        if self.attr_kind == other.attr_kind && self.attr != other.attr {
            return self.attr.cmp(&other.attr);
        }
        match self.cmp_attr(other) {
            Ordering::Equal => self.cmp_value(other),
            order => order,
        }
    }
}

impl PartialEq for Place {
    ghost eq = { λ x y. eq_by_cmp place_cmp x y };

    ghost laws = { partial_equiv_from_equiv (eq_by_cmp_equiv place_total) };

    fn eq(&self, other: &Place) -> bool {
        self.cmp(other).is_eq()
    }
}

impl Eq for Place {
    ghost laws = { eq_by_cmp_equiv place_total };
}

impl PartialOrd for Place {
    ghost partial_cmp = { λ x y. Some (place_cmp x y) };

    ghost laws = { partial_order_from_agreeing_total place_cmp place_total (λ x y. refl) (λ x y. refl) };

    fn partial_cmp(&self, other: &Place) -> Option<Ordering> {
        Some(self.cmp(other))
    }
}

/// The identifier comes first, so that its triples stand side by side, and the mark last, so that a triple stands beside that with
/// the other mark. Where the numbers of the identifiers differ, no more than these is compared.
impl Ord for Place {
    ghost cmp = { λ x y. place_cmp x y };

    ghost total = { place_total };

    ghost matches_partial_cmp = { λ x y. refl };

    ghost matches_eq = { λ x y. refl };

    fn cmp(&self, other: &Place) -> Ordering {
        if self.id != other.id {
            return self.id.cmp(&other.id);
        }
        match self.id_kind.cmp(&other.id_kind) {
            Ordering::Equal => self.cmp_rest(other),
            order => order,
        }
    }
}

/// The number of a kind, from 1 to 3.
pub fn kind_number(kind: Kind) -> u8
    ensures { result ≡ kind_number kind }
{
    match kind {
        Kind::Identifier => 1,
        Kind::Name => 2,
        Kind::Integer => 3,
    }
}

/// The kind of a number.
fn kind_at(number: u8) -> Kind
    ensures { result ≡ kind_at number }
{
    if number == 1 {
        Kind::Identifier
    } else if number == 2 {
        Kind::Name
    } else {
        Kind::Integer
    }
}

/// The place of a triple.
#[tactic(auto, unfolding(crate::specs::Place::place_of))]
pub fn place_of(triple: Triple) -> Place
    ensures place { result ≡ place_of triple }
    ensures told { IsTold triple }
{
    Place {
        id: number_of(triple.id),
        attr: number_of(triple.attr),
        value: number_of(triple.value),
        id_kind: kind_number(kind_of(triple.id)),
        attr_kind: kind_number(kind_of(triple.attr)),
        value_kind: kind_number(kind_of(triple.value)),
        accept: triple.accept,
    }
}

/// The triple of a place.
#[tactic(auto, unfolding(crate::specs::Place::triple_of))]
pub fn triple_of(place: Place) -> Triple
    ensures { result ≡ triple_of place }
{
    Triple {
        id: symbol_at(kind_at(place.id_kind), place.id),
        attr: symbol_at(kind_at(place.attr_kind), place.attr),
        value: symbol_at(kind_at(place.value_kind), place.value),
        accept: place.accept,
    }
}

/// A place of no triple among those of an identifier: before all of them at 0, behind them at 4.
#[tactic(auto, unfolding(crate::specs::Place::edge))]
pub fn edge(id: Sym, rank: u8) -> Place
    ensures place { result ≡ edge id rank }
    ensures told { IsToldSymbol id }
{
    Place {
        id: number_of(id),
        attr: 0,
        value: 0,
        id_kind: kind_number(kind_of(id)),
        attr_kind: rank,
        value_kind: 0,
        accept: false,
    }
}
