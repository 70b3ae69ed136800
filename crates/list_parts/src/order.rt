// Rows of preference memory in the order in which they are listed.
ghost use Rattle.std.specs.Prelude.{◌≡◌, ◌≤◌, length, IfOk, OnOk};
ghost use Rattle.std.specs.List.{insert};
ghost use Rattle.soar_rule.specs.Symbols.{AreKnown};
ghost use Rattle.defs_soar.specs.Dependencies.{symbols_of_referent, symbols_of_wish};
ghost use Rattle.defs_soar.specs.Values.{kind_place};
ghost use Rattle.defs_run.specs.Listing.{referent_cmp, row_cmp, rows_in_order, with_row_at};
ghost use Rattle.soar_settle.specs.Known.{AreRowsKnown};

use defs_soar::{PrefKind, Preference};
use soar_sym::{List, NoMemory, Sym, SymTable};
use std::alloc::Global;
use std::cmp::Ordering;

/// Copies of rows by value, kind, referent and firing.
pub fn rows_in_order(
    alloc: Global,
    table: &SymTable,
    rows: &[Preference],
) -> Result<List<Preference>, NoMemory>
    requires { AreRowsKnown table.now rows.now }
    ensures { IfOk result (λ ordered. ordered ≡ rows_in_order table.now rows.now) }
{
    let mut ordered = Vec::new(alloc);
    'rows: for at in (0..rows.len()).rev() {
        add_row(table, &mut ordered, rows[at])?;
    }
    Ok(List::from_vec(ordered))
}

/// Adds a row at its place among rows in their order.
fn add_row(table: &SymTable, rows: &mut Vec<Preference>, row: Preference) -> Result<(), NoMemory>
    requires all { AreRowsKnown table.now rows.old.items }
    requires one { AreKnown table.now (symbols_of_wish row.wish) }
    ensures { OnOk result (rows.new.items ≡ with_row_at table.now row rows.old.items) }
{
    let at = place(table, rows.as_slice(), row);
    rows.insert(at, row)?;
    Ok(())
}

/// The place of a row among rows in their order: before the first that is not less.
fn place(table: &SymTable, rows: &[Preference], row: Preference) -> usize
    requires all { AreRowsKnown table.now rows.now }
    requires one { AreKnown table.now (symbols_of_wish row.wish) }
    ensures within { result ≤ length rows.now }
    ensures place { with_row_at table.now row rows.now ≡ insert rows.now result row }
{
    'rows: for (at, other) in rows.iter().enumerate() {
        if !compare(table, *other, row).is_lt() {
            return at;
        }
    }
    rows.len()
}

/// By value, kind, referent and firing.
fn compare(table: &SymTable, row: Preference, other: Preference) -> Ordering
    requires row { AreKnown table.now (symbols_of_wish row.wish) }
    requires other { AreKnown table.now (symbols_of_wish other.wish) }
    ensures { result ≡ row_cmp table.now row other }
{
    let referents = compare_referents(table, row.wish.referent, other.wish.referent);
    let kinds = kind_place(row.wish.kind).cmp(&kind_place(other.wish.kind));
    let behind_kinds = referents.then(row.firing.cmp(&other.firing));
    table
        .compare(row.wish.value, other.wish.value)
        .then(kinds.then(behind_kinds))
}

/// No referent before any.
fn compare_referents(table: &SymTable, referent: Option<Sym>, other: Option<Sym>) -> Ordering
    requires referent { AreKnown table.now (symbols_of_referent referent) }
    requires other { AreKnown table.now (symbols_of_referent other) }
    ensures { result ≡ referent_cmp table.now referent other }
{
    match (referent, other) {
        (None, None) => Ordering::Equal,
        (None, Some(_)) => Ordering::Less,
        (Some(_), None) => Ordering::Greater,
        (Some(symbol), Some(other)) => table.compare(symbol, other),
    }
}

/// The place of a kind in their order.
fn kind_place(kind: PrefKind) -> u8
    ensures { result ≡ kind_place kind }
{
    match kind {
        PrefKind::Accept => 0,
        PrefKind::Require => 1,
        PrefKind::Reject => 2,
        PrefKind::Prohibit => 3,
        PrefKind::Better => 4,
        PrefKind::Worse => 5,
        PrefKind::Best => 6,
        PrefKind::Worst => 7,
        PrefKind::Indifferent => 8,
        PrefKind::Numeric => 9,
        PrefKind::IndifferentTo => 10,
    }
}
