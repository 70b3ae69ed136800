// The values that a candidate is better than.
ghost use Rattle.std.specs.Prelude.{◌≡◌, ◌||◌, IfOk, OnOk};
ghost use Rattle.std.specs.List.{list_any};
ghost use Rattle.soar_sym.specs.declared.symbol.Sym.{Sym as SymOf};
ghost use Rattle.defs_soar.specs.Choice.{is_beaten};
ghost use Rattle.defs_soar.specs.Sorted.{has_symbol};
ghost use Rattle.soar_choose.specs.Told.{better_in as better_in_row, beats_in_row};

use defs_soar::{PrefKind, Preference};
use soar_sym::{NoMemory, Sym, is_symbol};
use std::alloc::Global;
use symbol_sets::SymbolSet;

/// The better and the worse value of a row.
fn better_in(row: &Preference) -> Option<(Sym, Sym)>
    ensures { result ≡ better_in_row row.now.wish.kind row.now.wish.value row.now.wish.referent }
{
    match (row.wish.kind, row.wish.referent) {
        (PrefKind::Better, Some(worse)) => Some((row.wish.value, worse)),
        (PrefKind::Worse, Some(better)) => Some((better, row.wish.value)),
        _ => None,
    }
}

/// Adds the worse value of a row, where the better one is another and a candidate.
fn add_worse(
    beaten: &mut SymbolSet,
    candidates: &SymbolSet,
    row: &Preference,
) -> Result<(), NoMemory>
    ensures { OnOk result ((s : SymOf) → has_symbol beaten.new s ≡ (beats_in_row candidates.now s row.now || has_symbol beaten.old s)) }
{
    if let Some((better, worse)) = better_in(row) {
        if candidates.has(better) && !is_symbol(better, worse) {
            beaten.add(worse)?;
        }
    }
    Ok(())
}

/// These symbols as a set.
fn set_of(alloc: Global, symbols: &[Sym]) -> Result<SymbolSet, NoMemory>
    ensures { IfOk result (λ set. (s : SymOf) → has_symbol set s ≡ has_symbol symbols.now s) }
{
    let mut set = SymbolSet::new(alloc);
    'symbols: for symbol in symbols {
        set.add(*symbol)?;
    }
    Ok(set)
}

/// The worse values of the rows whose better value is another and a candidate.
fn beaten_by(
    alloc: Global,
    rows: &[Preference],
    candidates: &SymbolSet,
) -> Result<SymbolSet, NoMemory>
    ensures { IfOk result (λ set. (s : SymOf) → has_symbol set s ≡ list_any (beats_in_row candidates.now s) rows.now) }
{
    let mut beaten = SymbolSet::new(alloc);
    'rows: for row in rows {
        add_worse(&mut beaten, candidates, row)?;
    }
    Ok(beaten)
}

/// The values that a candidate is better than.
pub(crate) fn beaten(
    alloc: Global,
    rows: &[Preference],
    candidates: &[Sym],
) -> Result<SymbolSet, NoMemory>
    ensures { IfOk result (λ set. (s : SymOf) → has_symbol set s ≡ is_beaten rows.now candidates.now s) }
{
    let held = set_of(alloc, candidates)?;
    let beaten = beaten_by(alloc, rows, &held)?;
    Ok(beaten)
}
