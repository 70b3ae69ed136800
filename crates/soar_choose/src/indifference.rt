// Whether every two values are indifferent to each other.
ghost use Rattle.std.specs.Prelude.{◌≡◌, drop, IfOk};
ghost use Rattle.defs_soar.specs.Choice.{all_indifferent as all_indifferent_of};
ghost use Rattle.soar_choose.specs.Told.{all_told, not_alone};

use crate::kinds::{of_kinds, outside};
use crate::pairs::PairSet;
use defs_soar::{PrefKind, Preference};
use soar_sym::{NoMemory, Sym};
use std::alloc::Global;
use symbol_sets::SymbolSet;

/// Whether every two values are indifferent to each other. A value that is indifferent alone, or has a number, is so to each other
/// that is so too: no row needs to name both.
pub(crate) fn all_indifferent(
    alloc: Global,
    rows: &[Preference],
    values: &[Sym],
) -> Result<bool, NoMemory>
    ensures { IfOk result (λ all. all ≡ all_indifferent_of rows.now values.now) }
{
    let alone = of_kinds(alloc, PrefKind::Indifferent, PrefKind::Numeric, rows)?;
    let pairs = PairSet::of(alloc, rows)?;
    let others = outside(alloc, &alone, values)?;
    let all = all_told(&alone, &pairs, values, others.as_slice());
    Ok(all)
}

/// Whether every two values are indifferent alone or make a pair, where these are those that are not indifferent alone.
/// Each pair that is asked for is there, or is the last.
fn all_told(alone: &SymbolSet, pairs: &PairSet, values: &[Sym], others: &[Sym]) -> bool
    requires { others.now ≡ not_alone alone.now values.now }
    ensures { result ≡ all_told alone.now pairs.now values.now }
{
    let mut rest = values;
    let mut apart = others;
    'values: while let Some((value, later)) = rest.split_first() {
        if alone.has(*value) {
            if !pairs.is_paired_with_all(*value, apart) {
                return false;
            }
        } else {
            if !pairs.is_paired_with_all(*value, later) {
                return false;
            }
            apart = after_first(apart);
        }
        rest = later;
    }
    true
}

/// All symbols but the first.
fn after_first(symbols: &[Sym]) -> &[Sym]
    ensures { result.now ≡ drop 1 symbols.now }
{
    match symbols.split_first() {
        Some((_, rest)) => rest,
        None => symbols,
    }
}
