// The least ground whose identifier has a variable.
ghost use Rattle.std.specs.Prelude.{◌≡◌, None};
ghost use Rattle.condition_order.specs.Orders.{AreElementsKnown};
ghost use Rattle.condition_order.specs.Reaching.{IsElementKnown, IsReachedKnown, least_reached, lesser, with_reached};
ghost use Rattle.defs_soar.specs.ConditionOrder.{variable_place};

use crate::comparing::{Reached, compare};
use crate::places::variable_place;
use soar_sym::{Sym, SymTable};
use soar_wm::Element;

/// The least of those whose identifier has a variable, the first where two are alike.
pub(crate) fn least_reached(
    table: &SymTable,
    places: &[Sym],
    grounds: &[Element],
) -> Option<Reached>
    requires { AreElementsKnown table.now grounds.now }
    ensures { result ≡ least_reached table.now places.now None grounds.now }
{
    let mut least = None;
    'grounds: for element in grounds {
        least = with_reached(table, places, least, *element);
    }
    least
}

/// The least so far, with one element more.
fn with_reached(
    table: &SymTable,
    places: &[Sym],
    least: Option<Reached>,
    element: Element,
) -> Option<Reached>
    requires least { IsReachedKnown table.now least }
    requires element { IsElementKnown table.now element }
    ensures least { result ≡ with_reached table.now places.now least element (variable_place places.now element.id) }
    ensures known { IsReachedKnown table.now result }
{
    match variable_place(places, element.id) {
        Some(at) => Some(lesser(table, places, least, Reached { at, element })),
        None => least,
    }
}

fn lesser(table: &SymTable, places: &[Sym], least: Option<Reached>, other: Reached) -> Reached
    requires least { IsReachedKnown table.now least }
    requires other { IsElementKnown table.now other.element }
    ensures lesser { result ≡ lesser table.now places.now least other }
    ensures known { IsElementKnown table.now result.element }
{
    match least {
        Some(least) => {
            if compare(table, places, other, least).is_lt() {
                other
            } else {
                least
            }
        }
        None => other,
    }
}
