// Which of two grounds comes first.
ghost use Rattle.std.specs.Prelude.{◌≡◌};
ghost use Rattle.std.specs.Ordering.{bool_cmp, ordering_then};
ghost use Rattle.condition_order.specs.Reaching.{IsElementKnown, reached_cmp};
ghost use Rattle.defs_soar.specs.ConditionOrder.{unplaced_cmp, value_cmp};
ghost use Rattle.defs_soar.specs.Values.{is_identifier};

use crate::places::variable_place;
use soar_sym::{Sym, SymTable, is_identifier};
use soar_wm::Element;
use std::cmp::Ordering;

/// A ground whose identifier has a variable, and the place of that.
#[derive(Clone, Copy)]
pub(crate) struct Reached {
    pub(crate) at: usize,
    pub(crate) element: Element,
}

/// By the place of the identifier's variable, then attribute, value and mark.
pub(crate) fn compare(table: &SymTable, places: &[Sym], a: Reached, b: Reached) -> Ordering
    requires first { IsElementKnown table.now a.element }
    requires second { IsElementKnown table.now b.element }
    ensures { result ≡ reached_cmp table.now places.now a b }
{
    let attributes = table.compare(a.element.attr, b.element.attr);
    match a.at.cmp(&b.at).then(attributes) {
        Ordering::Less => Ordering::Less,
        Ordering::Equal => compare_behind(table, places, a.element, b.element),
        Ordering::Greater => Ordering::Greater,
    }
}

/// By value, then mark.
fn compare_behind(table: &SymTable, places: &[Sym], a: Element, b: Element) -> Ordering
    requires first { IsElementKnown table.now a }
    requires second { IsElementKnown table.now b }
    ensures { result ≡ ordering_then (value_cmp table.now places.now a b) (bool_cmp a.accept b.accept) }
{
    compare_values(table, places, a, b).then(a.accept.cmp(&b.accept))
}

/// Identifiers with a variable by its place, then constants, then other identifiers.
fn compare_values(table: &SymTable, places: &[Sym], a: Element, b: Element) -> Ordering
    requires first { IsElementKnown table.now a }
    requires second { IsElementKnown table.now b }
    ensures { result ≡ value_cmp table.now places.now a b }
{
    match (
        variable_place(places, a.value),
        variable_place(places, b.value),
    ) {
        (Some(at), Some(other)) => at.cmp(&other),
        (Some(_), None) => Ordering::Less,
        (None, Some(_)) => Ordering::Greater,
        (None, None) => compare_unplaced(table, a, b),
    }
}

/// Constants before identifiers, and those by tag.
fn compare_unplaced(table: &SymTable, a: Element, b: Element) -> Ordering
    requires first { IsElementKnown table.now a }
    requires second { IsElementKnown table.now b }
    ensures { result ≡ unplaced_cmp table.now a b (is_identifier a.value) (is_identifier b.value) }
{
    match (is_identifier(a.value), is_identifier(b.value)) {
        (false, false) => table.compare(a.value, b.value),
        (false, true) => Ordering::Less,
        (true, false) => Ordering::Greater,
        (true, true) => a.tag.cmp(&b.tag),
    }
}
