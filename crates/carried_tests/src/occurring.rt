// In which field an identifier first occurs.
ghost use Rattle.std.specs.Prelude.{◌≡◌, ◌+◌, ◌<◌, ◌^◌};
ghost use Rattle.defs_soar.specs.CarriedTests.{field_place, occurrence, occurrence_from};

use soar_sym::{Sym, is_identifier, is_symbol};
use soar_wm::Element;

/// The field, of three for each element from 0, in which an identifier first occurs. A constant occurs nowhere.
pub(crate) fn occurrence(elements: &[Element], symbol: Sym) -> Option<usize>
    ensures { result ≡ occurrence elements.now symbol }
{
    if is_identifier(symbol) {
        first_occurrence(elements, symbol)
    } else {
        None
    }
}

fn first_occurrence(elements: &[Element], symbol: Sym) -> Option<usize>
    ensures { result ≡ occurrence_from 0 elements.now symbol }
{
    'elements: for (index, element) in elements.iter().enumerate() {
        if let Some(at) = field_place(3 * index, *element, symbol) {
            return Some(at);
        }
    }
    None
}

fn field_place(first: usize, element: Element, symbol: Sym) -> Option<usize>
    requires { first + 2 < 2 ^ 64 }
    ensures { result ≡ field_place first element symbol }
{
    if is_symbol(element.id, symbol) {
        return Some(first);
    }
    if is_symbol(element.attr, symbol) {
        return Some(first + 1);
    }
    if is_symbol(element.value, symbol) {
        return Some(first + 2);
    }
    None
}
