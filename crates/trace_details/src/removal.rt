// The line of a goal that went.
ghost use Rattle.std.specs.Prelude.{◌≡◌, IfOk, OnErr, OnOk};
ghost use Rattle.soar_sym.specs.Words.{IsKnown};
ghost use Rattle.defs_soar.specs.Events.{removes};
ghost use Rattle.defs_soar.specs.Trace.{piece_of};
ghost use Rattle.trace_lines.specs.Saying.{SaysNothing, text_of_line};
ghost use Rattle.trace_details.specs.Details.{SaysAt};

use crate::level::{REMOVALS, is_shown};
use crate::line::say_line;
use soar_sym::{NoMemory, Sym, SymTable, Text};
use std::alloc::Global;
use trace_lines::show_symbol;

/// Appends the line of a goal that went, as `remove S2`.
pub fn say_removal(
    watch: u8,
    table: &SymTable,
    goal: Sym,
    out: &mut Text,
    mid_line: &mut bool,
) -> Result<(), NoMemory>
    requires { IsKnown table.now goal }
    ensures ok { OnOk result (SaysAt watch table.now (removes goal) mid_line.old out.old mid_line.new out.new) }
    ensures err { OnErr result (SaysNothing mid_line.old out.old mid_line.new out.new) }
{
    if !is_shown(watch, REMOVALS) {
        return Ok(());
    }
    let text = removal_text(out.allocator(), table, goal)?;
    say_line(out, mid_line, text.as_str())
}

fn removal_text(alloc: Global, table: &SymTable, goal: Sym) -> Result<Text, NoMemory>
    requires { IsKnown table.now goal }
    ensures { IfOk result (λ text. text ≡ text_of_line (piece_of table.now (removes goal))) }
{
    let mut text = Text::from_str(alloc, "remove ")?;
    show_symbol(&mut text, table, goal)?;
    Ok(text)
}
