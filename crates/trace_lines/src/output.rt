// What the output link shows, and shows no longer.
ghost use Rattle.std.specs.Prelude.{◌≡◌, ◌++◌, map, string_bytes, IfOk, OnErr, OnOk};
ghost use Rattle.std.specs.List.{All};
ghost use Rattle.defs_soar.specs.Events.{shows, shows_no_longer};
ghost use Rattle.defs_soar.specs.Trace.{piece_of};
ghost use Rattle.trace_lines.specs.Saying.{IsTripleKnown, SaysLine, SaysLines, SaysNothing, output_event, text_of_line};

use crate::line::say_line;
use crate::texts::triple_text;
use soar_sym::{NoMemory, SymTable, Text, Triple};
use std::alloc::Global;

/// Appends a line for each triple that is gone from the output link, then one for each that is new.
pub fn say_outputs(
    table: &SymTable,
    gone: &[Triple],
    new: &[Triple],
    out: &mut Text,
    mid_line: &mut bool,
) -> Result<(), NoMemory>
    requires gone { All (IsTripleKnown table.now) gone.now }
    requires new { All (IsTripleKnown table.now) new.now }
    ensures ok { OnOk result (SaysLines table.now (map shows_no_longer gone.now ++ map shows new.now) mid_line.old out.old mid_line.new out.new) }
    ensures err { OnErr result (SaysNothing mid_line.old out.old mid_line.new out.new) }
{
    let mut said = Text::new(out.allocator());
    let mut mid_said = *mid_line;
    say_each(table, gone, false, &mut said, &mut mid_said)?;
    say_each(table, new, true, &mut said, &mut mid_said)?;
    out.push_str(said.as_str())?;
    *mid_line = mid_said;
    Ok(())
}

fn say_each(
    table: &SymTable,
    triples: &[Triple],
    shows: bool,
    out: &mut Text,
    mid_line: &mut bool,
) -> Result<(), NoMemory>
    requires { All (IsTripleKnown table.now) triples.now }
    ensures { OnOk result (SaysLines table.now (map (output_event shows) triples.now) mid_line.old out.old mid_line.new out.new) }
{
    'triples: for triple in triples {
        say_output(table, *triple, shows, out, mid_line)?;
    }
    Ok(())
}

/// Appends the line of a triple that the output link shows, or shows no longer, as `out + (I3 ^move north)`.
pub fn say_output(
    table: &SymTable,
    triple: Triple,
    shows: bool,
    out: &mut Text,
    mid_line: &mut bool,
) -> Result<(), NoMemory>
    requires { IsTripleKnown table.now triple }
    ensures ok { OnOk result (SaysLine table.now (output_event shows triple) mid_line.old out.old mid_line.new out.new) }
    ensures err { OnErr result (SaysNothing mid_line.old out.old mid_line.new out.new) }
{
    let text = output_text(out.allocator(), table, triple, shows)?;
    say_line(out, mid_line, text.as_str())
}

fn output_text(
    alloc: Global,
    table: &SymTable,
    triple: Triple,
    shows: bool,
) -> Result<String, NoMemory>
    requires { IsTripleKnown table.now triple }
    ensures { IfOk result (λ text. string_bytes text ≡ text_of_line (piece_of table.now (output_event shows triple))) }
{
    let triple = triple_text(alloc, table, triple)?;
    let triple = triple.as_str();
    if shows {
        Ok(format!(in alloc; "out + {triple}")?)
    } else {
        Ok(format!(in alloc; "out - {triple}")?)
    }
}
