// The order of triples.
ghost use Rattle.std.specs.Ordering.{ordering_then};
ghost use Rattle.std.specs.Prelude.{◌≡◌};
ghost use Rattle.soar_sym.specs.Order.{mark_cmp, symbol_cmp, triple_cmp};
ghost use Rattle.soar_settle.specs.Tagging.{IsTripleKnown};

use soar_sym::{SymTable, Triple};
use std::cmp::Ordering;

/// By identifier, attribute, value and mark in turn: the first in which they differ tells.
pub fn compare(table: &SymTable, a: Triple, b: Triple) -> Ordering
    requires first { IsTripleKnown table.now a }
    requires second { IsTripleKnown table.now b }
    ensures { result ≡ triple_cmp table.now a b }
{
    match table.compare(a.id, b.id) {
        Ordering::Equal => compare_behind(table, a, b),
        order => order,
    }
}

/// By attribute, value and mark in turn.
fn compare_behind(table: &SymTable, a: Triple, b: Triple) -> Ordering
    requires first { IsTripleKnown table.now a }
    requires second { IsTripleKnown table.now b }
    ensures { result ≡ ordering_then (symbol_cmp table.now a.attr b.attr) (ordering_then (symbol_cmp table.now a.value b.value) (mark_cmp a.accept b.accept)) }
{
    match table.compare(a.attr, b.attr) {
        Ordering::Equal => table
            .compare(a.value, b.value)
            .then(compare_marks(a.accept, b.accept)),
        order => order,
    }
}

/// Unmarked before marked.
fn compare_marks(a: bool, b: bool) -> Ordering
    ensures { result ≡ mark_cmp a b }
{
    match (a, b) {
        (false, true) => Ordering::Less,
        (true, false) => Ordering::Greater,
        _ => Ordering::Equal,
    }
}
