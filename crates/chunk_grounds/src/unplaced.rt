// The first identifier without a variable, among symbols, elements and tests.
ghost use Rattle.std.specs.Prelude.{◌≡◌, ◌&&◌, not, flat_map, map};
ghost use Rattle.carried_tests.specs.Seen.{carried_seen};
ghost use Rattle.defs_soar.specs.Sorted.{has_symbol};
ghost use Rattle.defs_soar.specs.Ungrounded.{first_without, symbols_of_carried, symbols_of_element};
ghost use Rattle.defs_soar.specs.Values.{is_identifier};

use carried_tests::CarriedTest;
use chain_identifiers::is_among;
use soar_sym::Sym;
use soar_wm::Element;

/// Whether it is an identifier that has no variable.
pub(crate) fn is_unplaced(places: &[Sym], symbol: Sym) -> bool
    ensures { result ≡ (is_identifier symbol && not (has_symbol places.now symbol)) }
{
    match symbol {
        Sym::Ident { .. } => !is_among(places, symbol),
        _ => false,
    }
}

pub(crate) fn first_without(places: &[Sym], symbols: &[Sym]) -> Option<Sym>
    ensures { result ≡ first_without places.now symbols.now }
{
    'symbols: for symbol in symbols {
        if is_unplaced(places, *symbol) {
            return Some(*symbol);
        }
    }
    None
}

pub(crate) fn first_in_elements(places: &[Sym], elements: &[Element]) -> Option<Sym>
    ensures { result ≡ first_without places.now (flat_map symbols_of_element elements.now) }
{
    'elements: for element in elements {
        if let Some(symbol) = first_without(places, &[element.id, element.attr, element.value]) {
            return Some(symbol);
        }
    }
    None
}

pub(crate) fn first_in_tests(places: &[Sym], tests: &[CarriedTest]) -> Option<Sym>
    ensures { result ≡ first_without places.now (flat_map symbols_of_carried (map carried_seen tests.now)) }
{
    'tests: for test in tests {
        if let Some(symbol) = first_without(places, &[test.field, test.referent]) {
            return Some(symbol);
        }
    }
    None
}
