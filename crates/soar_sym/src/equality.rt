ghost use Rattle.std.specs.Prelude.{◌≡◌};
ghost use Rattle.soar_sym.specs.Equality.{is_identifier, symbol_eq, triple_eq};

use crate::symbol::{Sym, Triple};

/// Whether a symbol is an identifier.
pub fn is_identifier(symbol: Sym) -> bool
    ensures { result ≡ is_identifier symbol }
{
    matches!(symbol, Sym::Ident { .. })
}

/// Whether two symbols are one.
pub fn is_symbol(a: Sym, b: Sym) -> bool
    ensures { result ≡ symbol_eq a b }
{
    match (a, b) {
        (
            Sym::Ident { letter, number },
            Sym::Ident {
                letter: other_letter,
                number: other_number,
            },
        ) => letter == other_letter && number == other_number,
        (Sym::Word(word), Sym::Word(other)) => word == other,
        (Sym::Int(value), Sym::Int(other)) => value == other,
        _ => false,
    }
}

/// Whether two triples are one, their marks included.
pub fn is_triple(a: Triple, b: Triple) -> bool
    ensures { result ≡ triple_eq a b }
{
    is_symbol(a.id, b.id)
        && is_symbol(a.attr, b.attr)
        && is_symbol(a.value, b.value)
        && a.accept == b.accept
}
