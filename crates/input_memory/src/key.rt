ghost use Rattle.std.specs.Prelude.{◌≡◌};
ghost use Rattle.input_memory.specs.Key.{is_under, lowest, IsToldKey};

use crate::place::{Place, edge, kind_number, place_of};
use packed_triples::{kind_of, number_of};
use soar_sym::{Sym, Triple};

/// By what triples are found.
#[derive(Clone, Copy)]
pub enum Key {
    /// Their identifier.
    Id(Sym),
    /// The whole triple, its mark included.
    Whole(Triple),
}

/// The place from which on the triples of a key stand.
pub fn lowest(key: Key) -> Place
    ensures place { result ≡ lowest key }
    ensures told { IsToldKey key }
{
    match key {
        Key::Id(id) => edge(id, 0),
        Key::Whole(triple) => place_of(triple),
    }
}

/// Whether a place is that of a triple of the key.
pub fn is_under(key: Key, place: Place) -> bool
    ensures { result ≡ is_under key place }
{
    match key {
        Key::Id(id) => place.id == number_of(id) && place.id_kind == kind_number(kind_of(id)),
        Key::Whole(triple) => place.cmp(&place_of(triple)).is_eq(),
    }
}
