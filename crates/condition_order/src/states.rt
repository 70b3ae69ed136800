// The states among the identifiers of grounds, in symbol order.
ghost use Rattle.std.specs.Prelude.{◌≡◌, ◌≤◌, if◌then◌else◌, length, IfOk, MatchOption, OnOk};
ghost use Rattle.std.specs.List.{insert};
ghost use Rattle.condition_order.specs.Orders.{AreElementsKnown};
ghost use Rattle.defs_soar.specs.ConditionOrder.{states_of};
ghost use Rattle.defs_soar.specs.Sorted.{with_symbol};
ghost use Rattle.soar_rule.specs.Symbols.{AreKnown};
ghost use Rattle.soar_sym.specs.Words.{IsKnown};

use soar_sym::{NoMemory, Sym, SymTable, is_symbol};
use soar_wm::Element;
use std::alloc::Global;

/// The states that are the identifier of a ground, the highest first.
pub(crate) fn states_of(
    alloc: Global,
    table: &SymTable,
    grounds: &[Element],
) -> Result<Vec<Sym>, NoMemory>
    requires { AreElementsKnown table.now grounds.now }
    ensures { IfOk result (λ states. states.items ≡ states_of table.now grounds.now) }
{
    let mut states = Vec::new(alloc);
    'grounds: for at in (0..grounds.len()).rev() {
        add_state(table, &mut states, grounds[at])?;
    }
    Ok(states)
}

/// Adds the identifier of an element, where that is a state.
fn add_state(table: &SymTable, states: &mut Vec<Sym>, element: Element) -> Result<(), NoMemory>
    requires all { AreKnown table.now states.old.items }
    requires one { IsKnown table.now element.id }
    ensures { OnOk result (states.new.items ≡ (if element.of_state then with_symbol table.now states.old.items element.id else states.old.items)) }
{
    if element.of_state {
        add_symbol(table, states, element.id)?;
    }
    Ok(())
}

/// Adds a symbol at its place, where it is new.
fn add_symbol(table: &SymTable, symbols: &mut Vec<Sym>, symbol: Sym) -> Result<(), NoMemory>
    requires all { AreKnown table.now symbols.old.items }
    requires one { IsKnown table.now symbol }
    ensures { OnOk result (symbols.new.items ≡ with_symbol table.now symbols.old.items symbol) }
{
    if let Some(at) = place(table, symbols.as_slice(), symbol) {
        symbols.insert(at, symbol)?;
    }
    Ok(())
}

/// The place of a new symbol among symbols in their order.
fn place(table: &SymTable, symbols: &[Sym], symbol: Sym) -> Option<usize>
    requires all { AreKnown table.now symbols.now }
    requires one { IsKnown table.now symbol }
    ensures within { MatchOption result (Unit {0}) (λ at. at ≤ length symbols.now) }
    ensures place { MatchOption result (with_symbol table.now symbols.now symbol ≡ symbols.now) (λ at. with_symbol table.now symbols.now symbol ≡ insert symbols.now at symbol) }
{
    'symbols: for (at, other) in symbols.iter().enumerate() {
        if is_symbol(symbol, *other) {
            return None;
        }
        if table.compare(symbol, *other).is_lt() {
            return Some(at);
        }
    }
    Some(symbols.len())
}
