// The line with which a part of a cycle begins.
ghost use Rattle.std.specs.Prelude.{◌≡◌, [], OnErr, OnOk};
ghost use Rattle.defs_soar.specs.Events.{begins};
ghost use Rattle.defs_soar.specs.Trace.{piece_of};
ghost use Rattle.trace_lines.specs.Saying.{SaysNothing, text_of_line};
ghost use Rattle.trace_details.specs.Details.{SaysAt, part_of};

use crate::level::{PARTS, is_shown};
use crate::line::say_line;
use soar_sym::{NoMemory, Text};

/// A part of a cycle.
#[derive(Clone, Copy)]
pub enum CyclePart {
    Input,
    Proposal,
    Decision,
    Application,
    Output,
}

/// Appends the line with which a part of a cycle begins, as `-- input`.
pub fn say_part(
    watch: u8,
    part: CyclePart,
    out: &mut Text,
    mid_line: &mut bool,
) -> Result<(), NoMemory>
    ensures ok { OnOk result (SaysAt watch [] (begins (part_of part)) mid_line.old out.old mid_line.new out.new) }
    ensures err { OnErr result (SaysNothing mid_line.old out.old mid_line.new out.new) }
{
    if !is_shown(watch, PARTS) {
        return Ok(());
    }
    say_line(out, mid_line, part_text(part))
}

fn part_text(part: CyclePart) -> &'static str
    ensures { result.now ≡ text_of_line (piece_of [] (begins (part_of part))) }
{
    match part {
        CyclePart::Input => "-- input",
        CyclePart::Proposal => "-- proposal",
        CyclePart::Decision => "-- decision",
        CyclePart::Application => "-- application",
        CyclePart::Output => "-- output",
    }
}
