// The superstate's elements on which an explanation rests.
ghost use Rattle.std.specs.Prelude.{◌≡◌};
ghost use Rattle.std.specs.List.{list_any};
ghost use Rattle.defs_soar.specs.ChainIdentifiers.{occurs_in};

use soar_sym::{Sym, is_symbol};
use soar_wm::Element;

/// Whether a ground holds the symbol.
pub(crate) fn is_in_ground(grounds: &[Element], symbol: Sym) -> bool
    ensures { result ≡ list_any (occurs_in symbol) grounds.now }
{
    'grounds: for element in grounds {
        if occurs_in(symbol, element) {
            return true;
        }
    }
    false
}

fn occurs_in(symbol: Sym, element: &Element) -> bool
    ensures { result ≡ occurs_in symbol element.now }
{
    is_symbol(element.id, symbol)
        || is_symbol(element.attr, symbol)
        || is_symbol(element.value, symbol)
}
