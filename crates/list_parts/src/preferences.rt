// The preferences of a slot.
ghost use Rattle.std.specs.Prelude.{◌≡◌, ◌++◌, false, map, string_bytes, IfOk, OnErr, OnOk};
ghost use Rattle.soar_rule.specs.Symbols.{AreKnown};
ghost use Rattle.defs_soar.specs.Dependencies.{symbols_of_wish};
ghost use Rattle.defs_soar.specs.Preferences.{slot_of};
ghost use Rattle.defs_soar.specs.Trace.{line_text};
ghost use Rattle.defs_run.specs.Listing.{preference_line};
ghost use Rattle.soar_settle.specs.Known.{AreRowsKnown};
ghost use Rattle.session_parts.specs.Saying.{Says};
ghost use Rattle.trace_lines.specs.Saying.{SaysNothing};
ghost use Rattle.list_parts.specs.Lists.{preference_lines, row_lines};

use crate::line::say_line;
use crate::order::rows_in_order;
use crate::wish::wish_text;
use defs_soar::Preference;
use soar_prefs::Prefs;
use soar_sym::{NoMemory, Sym, SymTable, Text};
use std::alloc::Global;

/// Appends the preferences for the values of an attribute of an identifier, one a line with its support and its firing, as
/// `(S1 ^operator O1 +) i fire 3`, or that there are none.
pub fn list_preferences(
    table: &SymTable,
    prefs: &Prefs,
    id: Sym,
    attr: Sym,
    out: &mut Text,
    mid_line: &mut bool,
) -> Result<(), NoMemory>
    requires { AreRowsKnown table.now prefs.now.rows }
    ensures ok { OnOk result (Says (preference_lines table.now (slot_of prefs.now.rows id attr)) mid_line.old out.old mid_line.new out.new) }
    ensures err { OnErr result (SaysNothing mid_line.old out.old mid_line.new out.new) }
{
    let rows = prefs.slot(out.allocator(), id, attr)?;
    list_slot(table, rows.as_slice(), out, mid_line)
}

fn list_slot(
    table: &SymTable,
    rows: &[Preference],
    out: &mut Text,
    mid_line: &mut bool,
) -> Result<(), NoMemory>
    requires { AreRowsKnown table.now rows.now }
    ensures ok { OnOk result (Says (preference_lines table.now rows.now) mid_line.old out.old mid_line.new out.new) }
    ensures err { OnErr result (SaysNothing mid_line.old out.old mid_line.new out.new) }
{
    let ordered = rows_in_order(out.allocator(), table, rows)?;
    list_ordered(table, ordered.as_slice(), out, mid_line)
}

/// Appends rows in the order in which they stand.
fn list_ordered(
    table: &SymTable,
    rows: &[Preference],
    out: &mut Text,
    mid_line: &mut bool,
) -> Result<(), NoMemory>
    requires { AreRowsKnown table.now rows.now }
    ensures ok { OnOk result (Says (row_lines table.now rows.now) mid_line.old out.old mid_line.new out.new) }
    ensures err { OnErr result (SaysNothing mid_line.old out.old mid_line.new out.new) }
{
    if rows.is_empty() {
        return say_line(out, mid_line, "no preferences");
    }
    let mut said = Text::new(out.allocator());
    let mut mid_said = *mid_line;
    say_rows(table, rows, &mut said, &mut mid_said)?;
    out.push_str(said.as_str())?;
    *mid_line = mid_said;
    Ok(())
}

/// Appends rows, of which want of memory may leave some.
fn say_rows(
    table: &SymTable,
    rows: &[Preference],
    out: &mut Text,
    mid_line: &mut bool,
) -> Result<(), NoMemory>
    requires { AreRowsKnown table.now rows.now }
    ensures { OnOk result (Says (map (preference_line table.now) rows.now) mid_line.old out.old mid_line.new out.new) }
{
    'rows: for row in rows {
        say_row(table, row, out, mid_line)?;
    }
    Ok(())
}

fn say_row(
    table: &SymTable,
    row: &Preference,
    out: &mut Text,
    mid_line: &mut bool,
) -> Result<(), NoMemory>
    requires { AreKnown table.now (symbols_of_wish row.now.wish) }
    ensures { OnOk result ((out.new ≡ out.old ++ line_text mid_line.old (preference_line table.now row.now)) × (mid_line.new ≡ false)) }
{
    let text = row_text(out.allocator(), table, row)?;
    say_line(out, mid_line, text.as_str())
}

/// A row: its preference, its support, and the number of its firing.
fn row_text(alloc: Global, table: &SymTable, row: &Preference) -> Result<String, NoMemory>
    requires { AreKnown table.now (symbols_of_wish row.now.wish) }
    ensures { IfOk result (λ text. string_bytes text ≡ preference_line table.now row.now) }
{
    let wish = wish_text(alloc, table, &row.wish)?;
    let (wish, firing) = (wish.as_str(), row.firing);
    if row.operator_support {
        Ok(format!(in alloc; "{wish} o fire {firing}")?)
    } else {
        Ok(format!(in alloc; "{wish} i fire {firing}")?)
    }
}
