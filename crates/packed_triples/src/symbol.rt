// Symbols as numbers with a kind.
ghost use Rattle.std.specs.Prelude.{◌≡◌};
ghost use Rattle.soar_sym.specs.Equality.{symbol_eq};
ghost use Rattle.packed_triples.specs.Packed.{IsExact, kind_eq, kind_of, number_of, symbol_at};

use soar_sym::Sym;

/// Which of the three a symbol is, in one byte.
#[derive(Clone, Copy)]
pub enum Kind {
    /// An identifier.
    Identifier,
    /// A word.
    Name,
    /// An integer.
    Integer,
}

/// Which of the three a symbol is.
pub fn kind_of(symbol: Sym) -> Kind
    ensures { result ≡ kind_of symbol }
{
    match symbol {
        Sym::Ident { .. } => Kind::Identifier,
        Sym::Word(_) => Kind::Name,
        Sym::Int(_) => Kind::Integer,
    }
}

/// The number of a symbol, which tells it from all others of its kind: of an identifier 2^32 times its letter, and its number.
pub fn number_of(symbol: Sym) -> i64
    ensures number { result ≡ number_of symbol }
    ensures symbol { symbol_at (kind_of symbol) result ≡ symbol }
    ensures exact { IsExact (kind_of symbol) result }
{
    match symbol {
        Sym::Ident { letter, number } => (letter as u64 * 4294967296 + number as u64) as i64,
        Sym::Word(word) => word as i64,
        Sym::Int(value) => value,
    }
}

/// The symbol of a kind and a number.
pub fn symbol_at(kind: Kind, number: i64) -> Sym
    ensures { result ≡ symbol_at kind number }
{
    let size = number.unsigned_abs();
    match kind {
        Kind::Identifier => Sym::Ident {
            letter: (size / 4294967296 % 256) as u8,
            number: (size % 4294967296) as u32,
        },
        Kind::Name => Sym::Word((size % 4294967296) as u32),
        Kind::Integer => Sym::Int(number),
    }
}

/// Whether two kinds are one.
fn is_kind(a: Kind, b: Kind) -> bool
    ensures { result ≡ kind_eq a b }
{
    match (a, b) {
        (Kind::Identifier, Kind::Identifier) => true,
        (Kind::Name, Kind::Name) => true,
        (Kind::Integer, Kind::Integer) => true,
        _ => false,
    }
}

/// Whether two symbols are one, which are told by their numbers and kinds.
#[tactic(auto, using(crate::proofs::SymbolLemmas::same_symbol))]
pub(crate) fn is_same(kind: Kind, number: i64, other_kind: Kind, other: i64) -> bool
    requires first { IsExact kind number }
    requires second { IsExact other_kind other }
    ensures { result ≡ symbol_eq (symbol_at kind number) (symbol_at other_kind other) }
{
    number == other && is_kind(kind, other_kind)
}
