ghost use Rattle.std.specs.Prelude.{◌≡◌, ◌≤◌, map, length, IfOk};
ghost use Rattle.defs_soar.specs.Choice.{choice_of, candidates as candidates_of, all_scored as all_scored_of, unbeaten as unbeaten_of, if_some as if_some_of, best_of as best_of_rows, without_worst as without_worst_of, among as among_of, among_unbeaten as among_unbeaten_of, among_candidates as among_candidates_of};
ghost use Rattle.soar_choose.specs.Rows.{AreKnown, AreInRange, AreLeftWithin, AreSumsWithin, IsSomeLeft};
ghost use Rattle.soar_choose.specs.Told.{scored_by};

use crate::beaten::beaten;
use crate::indifference::all_indifferent;
use crate::kinds::{of_kind, of_kinds, outside, within};
use crate::rows::has_kind;
use crate::sums::Sums;
use crate::values::values_of;
use defs_soar::{Choice, PrefKind, Preference, Scored};
use soar_sym::{List, NoMemory, Sym, SymTable};
use std::alloc::Global;
use symbol_sets::SymbolSet;

/// What the rows of a slot leave, or the impasse that they give, in symbol order (Soar manual, chapter 2, preference semantics).
#[tactic(auto, using(crate::proofs::SumLemmas::some_left))]
pub fn choose(alloc: Global, table: &SymTable, rows: &List<Preference>) -> Result<Choice, NoMemory>
    requires known { AreKnown table.now rows.now }
    requires few { length rows.now ≤ 1000000 }
    requires range { AreInRange rows.now }
    ensures choice { IfOk result (λ choice. choice ≡ choice_of table.now rows.now) }
    ensures some { IfOk result (λ choice. IsSomeLeft choice) }
    ensures sums { IfOk result (λ choice. AreLeftWithin choice) }
{
    let rows = rows.as_slice();
    let required = values_of(alloc, table, PrefKind::Require, rows)?;
    match required.as_slice() {
        [] => among_candidates(alloc, rows, candidates(alloc, table, rows)?.as_slice()),
        [value] if !has_kind(rows, PrefKind::Prohibit, *value) => {
            Ok(Choice::Left(all_scored(alloc, rows, required.as_slice())?))
        }
        _ => Ok(Choice::Constraint(all_scored(alloc, rows, required.as_slice())?)),
    }
}

/// The values that are acceptable, and neither prohibited nor rejected.
fn candidates(alloc: Global, table: &SymTable, rows: &[Preference]) -> Result<Vec<Sym>, NoMemory>
    requires { AreKnown table.now rows.now }
    ensures { IfOk result (λ values. values.items ≡ candidates_of table.now rows.now) }
{
    let values = values_of(alloc, table, PrefKind::Accept, rows)?;
    let barred = of_kinds(alloc, PrefKind::Prohibit, PrefKind::Reject, rows)?;
    let left = outside(alloc, &barred, values.as_slice())?;
    Ok(left)
}

/// The choice among the candidates.
fn among_candidates(
    alloc: Global,
    rows: &[Preference],
    candidates: &[Sym],
) -> Result<Choice, NoMemory>
    requires few { length rows.now ≤ 1000000 }
    requires range { AreInRange rows.now }
    ensures choice { IfOk result (λ choice. choice ≡ among_candidates_of rows.now candidates.now) }
    ensures sums { IfOk result (λ choice. AreLeftWithin choice) }
{
    if candidates.is_empty() {
        return Ok(Choice::NoCandidate);
    }
    let left = unbeaten(alloc, rows, candidates)?;
    among_unbeaten(alloc, rows, candidates, left)
}

/// The choice among the candidates, given those that no other is better than.
fn among_unbeaten(
    alloc: Global,
    rows: &[Preference],
    candidates: &[Sym],
    values: Vec<Sym>,
) -> Result<Choice, NoMemory>
    requires few { length rows.now ≤ 1000000 }
    requires range { AreInRange rows.now }
    ensures choice { IfOk result (λ choice. choice ≡ among_unbeaten_of rows.now candidates.now values.items) }
    ensures sums { IfOk result (λ choice. AreLeftWithin choice) }
{
    if values.is_empty() {
        return Ok(Choice::Conflict(all_scored(alloc, rows, candidates)?));
    }
    let best = best_of(alloc, rows, values)?;
    let left = without_worst(alloc, rows, best)?;
    among(alloc, rows, left.as_slice())
}

/// The choice among what is left after better, best and worst.
fn among(alloc: Global, rows: &[Preference], values: &[Sym]) -> Result<Choice, NoMemory>
    requires few { length rows.now ≤ 1000000 }
    requires range { AreInRange rows.now }
    ensures choice { IfOk result (λ choice. choice ≡ among_of rows.now values.now) }
    ensures sums { IfOk result (λ choice. AreLeftWithin choice) }
{
    let all = all_scored(alloc, rows, values)?;
    if all_indifferent(alloc, rows, values)? {
        Ok(Choice::Left(all))
    } else {
        Ok(Choice::Tie(all))
    }
}

/// The values with their sums.
fn all_scored(alloc: Global, rows: &[Preference], values: &[Sym]) -> Result<List<Scored>, NoMemory>
    requires few { length rows.now ≤ 1000000 }
    requires range { AreInRange rows.now }
    ensures scored { IfOk result (λ all. all ≡ all_scored_of rows.now values.now) }
    ensures sums { IfOk result (λ all. AreSumsWithin all) }
{
    let numeric = of_kind(alloc, PrefKind::Numeric, rows)?;
    let sums = Sums::of(alloc, rows)?;
    let all = scored(alloc, &numeric, &sums, values)?;
    Ok(all)
}

/// The values, each with its sum, and whether it has a number.
fn scored(
    alloc: Global,
    numeric: &SymbolSet,
    sums: &Sums,
    values: &[Sym],
) -> Result<List<Scored>, NoMemory>
    ensures { IfOk result (λ all. all ≡ map (scored_by numeric.now sums.now) values.now) }
{
    let mut all = List::new(alloc);
    'values: for value in values {
        all.push(Scored {
            value: *value,
            numeric: numeric.has(*value),
            sum: sums.at(*value),
        })?;
    }
    Ok(all)
}

/// The candidates that no other is better than.
fn unbeaten(alloc: Global, rows: &[Preference], candidates: &[Sym]) -> Result<Vec<Sym>, NoMemory>
    ensures { IfOk result (λ left. left.items ≡ unbeaten_of rows.now candidates.now) }
{
    let beaten = beaten(alloc, rows, candidates)?;
    let left = outside(alloc, &beaten, candidates)?;
    Ok(left)
}

/// The values that are called best, if there are some, and else all.
fn best_of(alloc: Global, rows: &[Preference], values: Vec<Sym>) -> Result<Vec<Sym>, NoMemory>
    ensures { IfOk result (λ best. best.items ≡ best_of_rows rows.now values.items) }
{
    let named = of_kind(alloc, PrefKind::Best, rows)?;
    let best = within(alloc, &named, values.as_slice())?;
    Ok(if_some(best, values))
}

/// The values that are not called worst, if there are some, and else all.
fn without_worst(alloc: Global, rows: &[Preference], values: Vec<Sym>) -> Result<Vec<Sym>, NoMemory>
    ensures { IfOk result (λ left. left.items ≡ without_worst_of rows.now values.items) }
{
    let named = of_kind(alloc, PrefKind::Worst, rows)?;
    let left = outside(alloc, &named, values.as_slice())?;
    Ok(if_some(left, values))
}

/// Symbols, or others where there are none.
fn if_some(symbols: Vec<Sym>, others: Vec<Sym>) -> Vec<Sym>
    ensures { result.items ≡ if_some_of symbols.items others.items }
{
    if symbols.is_empty() { others } else { symbols }
}
