// Phases that were cut, and the halt.
ghost use Rattle.std.specs.Prelude.{[], OnErr, OnOk};
ghost use Rattle.defs_soar.specs.Events.{halts, is_cut};
ghost use Rattle.trace_lines.specs.Saying.{SaysLine, SaysNothing, part_of};

use crate::line::say_line;
use soar_sym::{NoMemory, Text};

/// A phase of waves. It is cut where as many waves as are allowed leave something pending.
#[derive(Clone, Copy)]
pub enum Phase {
    Proposal,
    Application,
}

/// Appends the line of a phase that was cut, as `cut proposal`.
pub fn say_cut(phase: Phase, out: &mut Text, mid_line: &mut bool) -> Result<(), NoMemory>
    ensures ok { OnOk result (SaysLine [] (is_cut (part_of phase)) mid_line.old out.old mid_line.new out.new) }
    ensures err { OnErr result (SaysNothing mid_line.old out.old mid_line.new out.new) }
{
    match phase {
        Phase::Proposal => say_line(out, mid_line, "cut proposal"),
        Phase::Application => say_line(out, mid_line, "cut application"),
    }
}

/// Appends the line of a halt.
pub fn say_halt(out: &mut Text, mid_line: &mut bool) -> Result<(), NoMemory>
    ensures ok { OnOk result (SaysLine [] halts mid_line.old out.old mid_line.new out.new) }
    ensures err { OnErr result (SaysNothing mid_line.old out.old mid_line.new out.new) }
{
    say_line(out, mid_line, "halt")
}
