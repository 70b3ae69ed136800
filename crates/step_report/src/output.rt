// What the output link shows, and shows no longer, at a watch level.
ghost use Rattle.std.specs.Prelude.{◌++◌, [], ◌∷◌, map, OnOk};
ghost use Rattle.std.specs.List.{All};
ghost use Rattle.defs_soar.specs.Events.{shows, shows_no_longer};
ghost use Rattle.trace_lines.specs.Saying.{IsTripleKnown, output_event};
ghost use Rattle.step_report.specs.Saying.{SaysEvents};

use crate::phase::LINES;
use soar_sym::{NoMemory, SymTable, Text, Triple};
use trace_lines::say_output;

/// Appends a line for each triple that is gone from the output link, then one for each that is new (level 1).
pub fn say_outputs_at(
    watch: u8,
    table: &SymTable,
    gone: &[Triple],
    new: &[Triple],
    out: &mut Text,
    mid_line: &mut bool,
) -> Result<(), NoMemory>
    requires gone { All (IsTripleKnown table.now) gone.now }
    requires new { All (IsTripleKnown table.now) new.now }
    ensures { OnOk result (SaysEvents watch table.now (map shows_no_longer gone.now ++ map shows new.now) mid_line.old out.old mid_line.new out.new) }
{
    say_each(watch, table, gone, false, out, mid_line)?;
    say_each(watch, table, new, true, out, mid_line)?;
    Ok(())
}

fn say_each(
    watch: u8,
    table: &SymTable,
    triples: &[Triple],
    shows: bool,
    out: &mut Text,
    mid_line: &mut bool,
) -> Result<(), NoMemory>
    requires { All (IsTripleKnown table.now) triples.now }
    ensures { OnOk result (SaysEvents watch table.now (map (output_event shows) triples.now) mid_line.old out.old mid_line.new out.new) }
{
    'triples: for triple in triples {
        say_output_at(watch, table, *triple, shows, out, mid_line)?;
    }
    Ok(())
}

#[tactic(auto, unfolding(defs_soar::specs::Trace::pieces_of))]
fn say_output_at(
    watch: u8,
    table: &SymTable,
    triple: Triple,
    shows: bool,
    out: &mut Text,
    mid_line: &mut bool,
) -> Result<(), NoMemory>
    requires { IsTripleKnown table.now triple }
    ensures { OnOk result (SaysEvents watch table.now (output_event shows triple ∷ []) mid_line.old out.old mid_line.new out.new) }
{
    if watch < LINES {
        return Ok(());
    }
    say_output(table, triple, shows, out, mid_line)
}
