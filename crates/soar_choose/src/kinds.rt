// The values that the rows of a kind name, as a set.
ghost use Rattle.std.specs.Prelude.{◌≡◌, ◌||◌, filter, not, IfOk, OnOk};
ghost use Rattle.soar_sym.specs.declared.symbol.Sym.{Sym as SymOf};
ghost use Rattle.defs_soar.specs.Choice.{has_kind as has_kind_of};
ghost use Rattle.defs_soar.specs.Sorted.{has_symbol};
ghost use Rattle.soar_choose.specs.Parts.{is_of as is_of_row};

use defs_soar::{PrefKind, Preference};
use soar_sym::{NoMemory, Sym};
use std::alloc::Global;
use symbol_sets::SymbolSet;

/// Adds the value of a row that is of a kind.
fn add_value(set: &mut SymbolSet, kind: PrefKind, row: &Preference) -> Result<(), NoMemory>
    ensures { OnOk result ((s : SymOf) → has_symbol set.new s ≡ (is_of_row kind s row.now || has_symbol set.old s)) }
{
    if row.wish.kind.is(kind) {
        set.add(row.wish.value)?;
    }
    Ok(())
}

/// Adds the values of the rows of a kind.
fn add_kind(set: &mut SymbolSet, kind: PrefKind, rows: &[Preference]) -> Result<(), NoMemory>
    ensures { OnOk result ((s : SymOf) → has_symbol set.new s ≡ (has_kind_of rows.now kind s || has_symbol set.old s)) }
{
    'rows: for row in rows {
        add_value(set, kind, row)?;
    }
    Ok(())
}

/// The values of the rows of a kind.
pub(crate) fn of_kind(
    alloc: Global,
    kind: PrefKind,
    rows: &[Preference],
) -> Result<SymbolSet, NoMemory>
    ensures { IfOk result (λ set. (s : SymOf) → has_symbol set s ≡ has_kind_of rows.now kind s) }
{
    let mut set = SymbolSet::new(alloc);
    add_kind(&mut set, kind, rows)?;
    Ok(set)
}

/// The values of the rows of one kind or another.
pub(crate) fn of_kinds(
    alloc: Global,
    kind: PrefKind,
    other: PrefKind,
    rows: &[Preference],
) -> Result<SymbolSet, NoMemory>
    ensures { IfOk result (λ set. (s : SymOf) → has_symbol set s ≡ (has_kind_of rows.now kind s || has_kind_of rows.now other s)) }
{
    let mut set = of_kind(alloc, other, rows)?;
    add_kind(&mut set, kind, rows)?;
    Ok(set)
}

/// The values that are in a set.
pub(crate) fn within(alloc: Global, set: &SymbolSet, values: &[Sym]) -> Result<Vec<Sym>, NoMemory>
    ensures { IfOk result (λ left. left.items ≡ filter (has_symbol set.now) values.now) }
{
    let mut left = Vec::new(alloc);
    'values: for value in values {
        if set.has(*value) {
            left.push(*value)?;
        }
    }
    Ok(left)
}

/// The values that are not in a set.
pub(crate) fn outside(alloc: Global, set: &SymbolSet, values: &[Sym]) -> Result<Vec<Sym>, NoMemory>
    ensures { IfOk result (λ left. left.items ≡ filter (λ v. not (has_symbol set.now v)) values.now) }
{
    let mut left = Vec::new(alloc);
    'values: for value in values {
        if !set.has(*value) {
            left.push(*value)?;
        }
    }
    Ok(left)
}
