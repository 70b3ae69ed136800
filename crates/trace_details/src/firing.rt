// The lines of a firing that is made, and of one that is taken back.
ghost use Rattle.std.specs.Prelude.{OnErr, OnOk};
ghost use Rattle.soar_sym.specs.Words.{IsKnown};
ghost use Rattle.defs_soar.specs.Events.{fires, retracts};
ghost use Rattle.trace_lines.specs.Saying.{SaysNothing};
ghost use Rattle.trace_details.specs.Details.{SaysAt};

use crate::level::{FIRINGS, is_shown};
use crate::line::say_line;
use chain_texts::numbered_text;
use defs_match::Instance;
use soar_sym::{NoMemory, Sym, SymTable, Text};

/// Appends the line of a firing under its number and the name of its rule, as `fire 3 eval: 14 15`.
pub fn say_firing(
    watch: u8,
    table: &SymTable,
    number: u64,
    name: Sym,
    instance: &Instance,
    out: &mut Text,
    mid_line: &mut bool,
) -> Result<(), NoMemory>
    requires { IsKnown table.now name }
    ensures ok { OnOk result (SaysAt watch table.now (fires number name instance.now) mid_line.old out.old mid_line.new out.new) }
    ensures err { OnErr result (SaysNothing mid_line.old out.old mid_line.new out.new) }
{
    if !is_shown(watch, FIRINGS) {
        return Ok(());
    }
    let text = numbered_text(out.allocator(), "fire ", table, number, name, instance)?;
    say_line(out, mid_line, text.as_str())
}

/// Appends the line of a firing that is taken back, as `retract 3 eval: 14 15`.
pub fn say_retraction(
    watch: u8,
    table: &SymTable,
    number: u64,
    name: Sym,
    instance: &Instance,
    out: &mut Text,
    mid_line: &mut bool,
) -> Result<(), NoMemory>
    requires { IsKnown table.now name }
    ensures ok { OnOk result (SaysAt watch table.now (retracts number name instance.now) mid_line.old out.old mid_line.new out.new) }
    ensures err { OnErr result (SaysNothing mid_line.old out.old mid_line.new out.new) }
{
    if !is_shown(watch, FIRINGS) {
        return Ok(());
    }
    let text = numbered_text(out.allocator(), "retract ", table, number, name, instance)?;
    say_line(out, mid_line, text.as_str())
}
