ghost use Rattle.std.specs.Prelude.{◌≡◌, ◌≤◌, length, IfOk, OnOk, MatchOption};
ghost use Rattle.std.specs.List.{insert};
ghost use Rattle.defs_soar.specs.Choice.{values_of as values_of_rows};
ghost use Rattle.defs_soar.specs.Sorted.{with_symbol};
ghost use Rattle.soar_sym.specs.Words.{IsKnown};
ghost use Rattle.soar_choose.specs.Parts.{AreSymbolsKnown};
ghost use Rattle.soar_choose.specs.Rows.{AreKnown};

use crate::merging::merged;
use defs_soar::{PrefKind, Preference};
use soar_sym::{NoMemory, Sym, SymTable, is_symbol};
use std::alloc::Global;

/// The most rows whose values are put in order one by one.
const FEW: usize = 16;

/// The values of the rows of a kind, in symbol order, by halves.
pub(crate) fn values_of(
    alloc: Global,
    table: &SymTable,
    kind: PrefKind,
    rows: &[Preference],
) -> Result<Vec<Sym>, NoMemory>
    requires { AreKnown table.now rows.now }
    ensures { IfOk result (λ values. values.items ≡ values_of_rows table.now kind rows.now) }
{
    if rows.len() <= FEW {
        let few = few_values_of(alloc, table, kind, rows)?;
        return Ok(few);
    }
    table.law();
    let (front, back) = rows.split_at(rows.len() / 2);
    let first = values_of(alloc, table, kind, front)?;
    let second = values_of(alloc, table, kind, back)?;
    let both = merged(alloc, table, first.as_slice(), second.as_slice())?;
    Ok(both)
}

/// The values of the rows of a kind, in symbol order, one by one.
fn few_values_of(
    alloc: Global,
    table: &SymTable,
    kind: PrefKind,
    rows: &[Preference],
) -> Result<Vec<Sym>, NoMemory>
    requires { AreKnown table.now rows.now }
    ensures { IfOk result (λ values. values.items ≡ values_of_rows table.now kind rows.now) }
{
    let mut values = Vec::new(alloc);
    'rows: for at in (0..rows.len()).rev() {
        let wish = rows[at].wish;
        if wish.kind.is(kind) {
            add_symbol(table, &mut values, wish.value)?;
        }
    }
    Ok(values)
}

/// Adds a symbol at its place, where it is new.
fn add_symbol(table: &SymTable, symbols: &mut Vec<Sym>, symbol: Sym) -> Result<(), NoMemory>
    requires all { AreSymbolsKnown table.now symbols.old.items }
    requires one { IsKnown table.now symbol }
    ensures { OnOk result (symbols.new.items ≡ with_symbol table.now symbols.old.items symbol) }
{
    if let Some(at) = place(table, symbols.as_slice(), symbol) {
        symbols.insert(at, symbol)?;
    }
    Ok(())
}

/// The place of a new symbol among symbols in their order.
fn place(table: &SymTable, symbols: &[Sym], symbol: Sym) -> Option<usize>
    requires all { AreSymbolsKnown table.now symbols.now }
    requires one { IsKnown table.now symbol }
    ensures within { MatchOption result (Unit {0}) (λ at. at ≤ length symbols.now) }
    ensures place { MatchOption result (with_symbol table.now symbols.now symbol ≡ symbols.now) (λ at. with_symbol table.now symbols.now symbol ≡ insert symbols.now at symbol) }
{
    'symbols: for (at, other) in symbols.iter().enumerate() {
        if is_symbol(symbol, *other) {
            return None;
        }
        if table.compare(symbol, *other).is_lt() {
            return Some(at);
        }
    }
    Some(symbols.len())
}
