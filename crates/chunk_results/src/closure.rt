// The rows that hang on results, in order of triple.
ghost use Rattle.std.specs.Prelude.{◌≡◌, ◌≤◌, ◌++◌, ◌&&◌, take, drop, length, IfOk, OnOk};
ghost use Rattle.std.specs.List.{prefix_len};
ghost use Rattle.soar_rule.specs.Symbols.{AreKnown};
ghost use Rattle.defs_soar.specs.declared.preference.PrefKind.TheVariants as kind;
ghost use Rattle.soar_sym.specs.Order.{triple_cmp};
ghost use Rattle.defs_soar.specs.Dependencies.{symbols_of_wish};
ghost use Rattle.defs_soar.specs.Results.{accepted_for, each_triple_once, row_triple, with_closure_row};
ghost use Rattle.defs_soar.specs.Sorted.{has_symbol};
ghost use Rattle.defs_soar.specs.Values.{is_kind, same_triple};
ghost use Rattle.chunk_results.specs.Placed.{is_behind, lesser_maker, put_row};
ghost use Rattle.chunk_results.specs.Reached.{AreRowsKnown};

use defs_soar::{PrefKind, Preference, Wish};
use soar_sym::{List, NoMemory, SymTable, is_symbol};
use std::alloc::Global;
use std::cmp::Ordering;
use symbol_sets::SymbolSet;

/// The acceptable rows of these identifiers in order of triple, each triple with its least-numbered maker.
pub(crate) fn closure_of(
    alloc: Global,
    table: &SymTable,
    rows: &[Preference],
    ids: &SymbolSet,
) -> Result<List<Preference>, NoMemory>
    requires { AreRowsKnown table.now rows.now }
    ensures { IfOk result (λ closure. closure ≡ each_triple_once table.now (accepted_for rows.now ids.now)) }
{
    let mut closure = Vec::new(alloc);
    'rows: for at in (0..rows.len()).rev() {
        if is_accepted(&rows[at].wish, ids) {
            add_row(table, &mut closure, rows[at])?;
        }
    }
    Ok(List::from_vec(closure))
}

/// Whether a wish is an acceptable preference for one of these identifiers.
pub(crate) fn is_accepted(wish: &Wish, ids: &SymbolSet) -> bool
    ensures { result ≡ (is_kind wish.now.kind kind.Accept && has_symbol ids.now wish.now.id) }
{
    wish.kind.is(PrefKind::Accept) && ids.has(wish.id)
}

/// Adds a row at its place, or in the place of a row of the same triple and a later firing.
fn add_row(table: &SymTable, closure: &mut Vec<Preference>, row: Preference) -> Result<(), NoMemory>
    requires all { AreRowsKnown table.now closure.old.items }
    requires one { AreKnown table.now (symbols_of_wish row.wish) }
    ensures { OnOk result (closure.new.items ≡ with_closure_row table.now row closure.old.items) }
{
    let at = place(table, closure.as_slice(), &row);
    put(closure, at, row)
}

/// How many of the rows come before another.
fn place(table: &SymTable, rows: &[Preference], row: &Preference) -> usize
    requires all { AreRowsKnown table.now rows.now }
    requires one { AreKnown table.now (symbols_of_wish row.now.wish) }
    ensures { result ≡ prefix_len (is_behind table.now row.now) rows.now }
{
    'rows: for (at, other) in rows.iter().enumerate() {
        if !is_behind(table, row, other) {
            return at;
        }
    }
    rows.len()
}

fn put(closure: &mut Vec<Preference>, at: usize, row: Preference) -> Result<(), NoMemory>
    requires { at ≤ length closure.old.items }
    ensures { OnOk result (closure.new.items ≡ take at closure.old.items ++ put_row row (drop at closure.old.items)) }
{
    if at < closure.len() && is_same_triple(&row, &closure[at]) {
        closure[at] = lesser_maker(row, closure[at]);
        return Ok(());
    }
    closure.insert(at, row)?;
    Ok(())
}

/// The row of the lesser-numbered firing.
fn lesser_maker(row: Preference, other: Preference) -> Preference
    ensures { result ≡ lesser_maker row other }
{
    if row.firing < other.firing {
        row
    } else {
        other
    }
}

fn is_behind(table: &SymTable, row: &Preference, other: &Preference) -> bool
    requires first { AreKnown table.now (symbols_of_wish row.now.wish) }
    requires second { AreKnown table.now (symbols_of_wish other.now.wish) }
    ensures { result ≡ is_behind table.now row.now other.now }
{
    !is_same_triple(row, other) && !compare(table, row, other).is_lt()
}

/// By identifier, attribute and value in turn.
#[tactic(auto, using(crate::proofs::PlaceLemmas::then_equal))]
fn compare(table: &SymTable, row: &Preference, other: &Preference) -> Ordering
    requires first { AreKnown table.now (symbols_of_wish row.now.wish) }
    requires second { AreKnown table.now (symbols_of_wish other.now.wish) }
    ensures { result ≡ triple_cmp table.now (row_triple row.now) (row_triple other.now) }
{
    let value = table.compare(row.wish.value, other.wish.value);
    let attr = table.compare(row.wish.attr, other.wish.attr).then(value);
    table.compare(row.wish.id, other.wish.id).then(attr)
}

fn is_same_triple(row: &Preference, other: &Preference) -> bool
    ensures { result ≡ same_triple row.now other.now }
{
    is_symbol(row.wish.id, other.wish.id)
        && is_symbol(row.wish.attr, other.wish.attr)
        && is_symbol(row.wish.value, other.wish.value)
}
