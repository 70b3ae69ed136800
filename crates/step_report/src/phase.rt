// The lines of phases and of the halt, at a watch level.
ghost use Rattle.std.specs.Prelude.{[], ◌∷◌, OnOk};
ghost use Rattle.defs_soar.specs.Events.{begins, halts, is_cut};
ghost use Rattle.trace_lines.specs.Saying as lines;
ghost use Rattle.wave_entries.specs.Details as details;
ghost use Rattle.step_report.specs.Saying.{SaysEvents};

use soar_sym::{NoMemory, SymTable, Text};
use trace_lines::{Phase, say_cut, say_halt};
use wave_entries::{CyclePart, say_part};

/// The watch level from which the lines of `trace_lines` are shown.
pub const LINES: u8 = 1;

/// Appends the line with which a part of a cycle begins (level 2).
#[tactic(auto, unfolding(defs_soar::specs::Trace::pieces_of))]
pub fn begin_part(
    watch: u8,
    table: &SymTable,
    part: CyclePart,
    out: &mut Text,
    mid_line: &mut bool,
) -> Result<(), NoMemory>
    ensures { OnOk result (SaysEvents watch table.now (begins (details.part_of part) ∷ []) mid_line.old out.old mid_line.new out.new) }
{
    say_part(watch, part, out, mid_line)
}

/// Appends the line of a phase that was cut (level 1).
#[tactic(auto, unfolding(defs_soar::specs::Trace::pieces_of))]
pub fn say_cut_at(
    watch: u8,
    table: &SymTable,
    phase: Phase,
    out: &mut Text,
    mid_line: &mut bool,
) -> Result<(), NoMemory>
    ensures { OnOk result (SaysEvents watch table.now (is_cut (lines.part_of phase) ∷ []) mid_line.old out.old mid_line.new out.new) }
{
    if watch < LINES {
        return Ok(());
    }
    say_cut(phase, out, mid_line)
}

/// Appends the line of a halt (level 1).
#[tactic(auto, unfolding(defs_soar::specs::Trace::pieces_of))]
pub fn say_halt_at(
    watch: u8,
    table: &SymTable,
    out: &mut Text,
    mid_line: &mut bool,
) -> Result<(), NoMemory>
    ensures { OnOk result (SaysEvents watch table.now (halts ∷ []) mid_line.old out.old mid_line.new out.new) }
{
    if watch < LINES {
        return Ok(());
    }
    say_halt(out, mid_line)
}
