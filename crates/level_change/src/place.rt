// Where levels and links are kept: identifiers in eight bytes.
ghost use Rattle.std.specs.Prelude.{◌≡◌};
ghost use Rattle.level_change.specs.Links.{id_of, symbol_of, link_place};

use packed_ids::PackedId;
use soar_sym::Sym;

/// An identifier's letter and number.
pub type Id = PackedId;

/// Where a link starts and ends.
pub type Place = (Id, Id);

/// The letter and number of an identifier, and none of another symbol.
pub fn id_of(symbol: Sym) -> Option<Id>
    ensures { result ≡ id_of symbol }
{
    match symbol {
        Sym::Ident { letter, number } => Some(PackedId::new(letter, number)),
        Sym::Word(_) => None,
        Sym::Int(_) => None,
    }
}

/// The identifier of a letter and a number.
pub fn symbol_of(id: Id) -> Sym
    ensures { result ≡ symbol_of id }
{
    Sym::Ident {
        letter: id.letter(),
        number: id.number(),
    }
}

/// The place of a link, where both its ends are identifiers.
pub fn link_place(from: Sym, to: Sym) -> Option<Place>
    ensures { result ≡ link_place (id_of from) (id_of to) }
{
    match (id_of(from), id_of(to)) {
        (Some(from), Some(to)) => Some((from, to)),
        _ => None,
    }
}
