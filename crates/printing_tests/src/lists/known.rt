// Whether symbols are of a table.
ghost use Rattle.std.specs.Prelude.{IsTrue};
ghost use Rattle.soar_sym.specs.Words.{IsKnown};
ghost use Rattle.soar_rule.specs.Symbols.{AreKnown};
ghost use Rattle.defs_soar.specs.Dependencies.{symbols_of_referent, symbols_of_wish};
ghost use Rattle.soar_settle.specs.Known.{AreElementsKnown, AreRowsKnown};

use defs_soar::{Preference, Wish};
use soar_sym::{Sym, SymTable};
use soar_wm::Element;

pub fn are_rows_known(table: &SymTable, rows: &[Preference]) -> bool
    ensures { IsTrue result → AreRowsKnown table.now rows.now }
{
    'rows: for row in rows {
        if !is_wish_known(table, row.wish) {
            return false;
        }
    }
    true
}

pub fn is_wish_known(table: &SymTable, wish: Wish) -> bool
    ensures { IsTrue result → AreKnown table.now (symbols_of_wish wish) }
{
    is_known(table, wish.id)
        && is_known(table, wish.attr)
        && is_known(table, wish.value)
        && is_referent_known(table, wish.referent)
}

fn is_referent_known(table: &SymTable, referent: Option<Sym>) -> bool
    ensures { IsTrue result → AreKnown table.now (symbols_of_referent referent) }
{
    match referent {
        Some(symbol) => is_known(table, symbol),
        None => true,
    }
}

pub fn are_elements_known(table: &SymTable, elements: &[Element]) -> bool
    ensures { IsTrue result → AreElementsKnown table.now elements.now }
{
    'elements: for element in elements {
        if !is_element_known(table, *element) {
            return false;
        }
    }
    true
}

fn is_element_known(table: &SymTable, element: Element) -> bool
    ensures id { IsTrue result → IsKnown table.now element.id }
    ensures attr { IsTrue result → IsKnown table.now element.attr }
    ensures value { IsTrue result → IsKnown table.now element.value }
{
    is_known(table, element.id) && is_known(table, element.attr) && is_known(table, element.value)
}

fn is_known(table: &SymTable, symbol: Sym) -> bool
    ensures { IsTrue result → IsKnown table.now symbol }
{
    match symbol {
        Sym::Word(word) => word < table.word_count(),
        Sym::Int(_) => true,
        Sym::Ident { letter, .. } => letter >= 65 && letter <= 90,
    }
}
