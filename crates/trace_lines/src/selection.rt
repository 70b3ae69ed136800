// The line of a decision that selects an operator.
ghost use Rattle.std.specs.Prelude.{◌≡◌, string_bytes, IfOk, IfSome, OnErr, OnOk};
ghost use Rattle.soar_sym.specs.Words.{IsKnown};
ghost use Rattle.defs_soar.specs.Trace.{piece_of};
ghost use Rattle.trace_lines.specs.Saying.{SaysLine, SaysNothing, selection_event, text_of_line};

use crate::line::say_line;
use crate::texts::{indent_text, name_text, symbol_text};
use soar_sym::{NoMemory, Sym, SymTable, Text};
use std::alloc::Global;

/// An operator that was selected.
#[derive(Clone, Copy)]
pub struct Selected {
    /// The number of the cycle, from 1.
    pub cycle: u64,

    /// How many goals its goal is below the top: 0 for the top goal.
    pub below: usize,

    /// The operator.
    pub operator: Sym,

    /// Its name, where it has one.
    pub name: Option<Sym>,
}

/// Appends the line of a decision that selects an operator, as `2: O: O1 (wait)`.
pub fn say_selection(
    table: &SymTable,
    selected: &Selected,
    out: &mut Text,
    mid_line: &mut bool,
) -> Result<(), NoMemory>
    requires operator { IsKnown table.now selected.now.operator }
    requires name { IfSome selected.now.name (IsKnown table.now) }
    ensures ok { OnOk result (SaysLine table.now (selection_event selected.now) mid_line.old out.old mid_line.new out.new) }
    ensures err { OnErr result (SaysNothing mid_line.old out.old mid_line.new out.new) }
{
    let text = selection_text(out.allocator(), table, selected)?;
    say_line(out, mid_line, text.as_str())
}

fn selection_text(alloc: Global, table: &SymTable, selected: &Selected) -> Result<String, NoMemory>
    requires operator { IsKnown table.now selected.now.operator }
    requires name { IfSome selected.now.name (IsKnown table.now) }
    ensures { IfOk result (λ text. string_bytes text ≡ text_of_line (piece_of table.now (selection_event selected.now))) }
{
    let indent = indent_text(alloc, selected.below)?;
    let operator = symbol_text(alloc, table, selected.operator)?;
    let name = name_text(alloc, table, selected.name)?;
    let cycle = selected.cycle;
    let (indent, operator, name) = (indent.as_str(), operator.as_str(), name.as_str());
    Ok(format!(in alloc; "{cycle}: {indent}O: {operator}{name}")?)
}
