// The line of a dropped action.
ghost use Rattle.std.specs.Prelude.{◌≡◌, [], string_bytes, IfOk, OnErr, OnOk};
ghost use Rattle.defs_soar.specs.Events.{drops};
ghost use Rattle.defs_soar.specs.Trace.{drop_text, piece_of};
ghost use Rattle.trace_lines.specs.Saying.{SaysNothing, text_of_line};
ghost use Rattle.trace_details.specs.Details.{SaysAt};

use crate::level::{DROPS, is_shown};
use crate::line::say_line;
use defs_soar::{DropCause, Dropped};
use soar_sym::{NoMemory, Text};
use std::alloc::Global;

/// Appends the line of a dropped action under its firing, as `  drop 2 zero divisor`.
pub fn say_drop(
    watch: u8,
    dropped: Dropped,
    out: &mut Text,
    mid_line: &mut bool,
) -> Result<(), NoMemory>
    ensures ok { OnOk result (SaysAt watch [] (drops dropped) mid_line.old out.old mid_line.new out.new) }
    ensures err { OnErr result (SaysNothing mid_line.old out.old mid_line.new out.new) }
{
    if !is_shown(watch, DROPS) {
        return Ok(());
    }
    let text = dropped_text(out.allocator(), dropped)?;
    say_line(out, mid_line, text.as_str())
}

fn dropped_text(alloc: Global, dropped: Dropped) -> Result<String, NoMemory>
    ensures { IfOk result (λ text. string_bytes text ≡ text_of_line (piece_of [] (drops dropped))) }
{
    let (action, cause) = (dropped.action, cause_text(dropped.cause));
    Ok(format!(in alloc; "  drop {action} {cause}")?)
}

fn cause_text(cause: DropCause) -> &'static str
    ensures { result.now ≡ drop_text cause }
{
    match cause {
        DropCause::Overflow => "overflow",
        DropCause::ZeroDivisor => "zero divisor",
        DropCause::NotANumber => "not a number",
        DropCause::TooLong => "too long",
        DropCause::NotAnIdentifier => "not an identifier",
        DropCause::NotAnOperator => "not an operator",
        DropCause::OutOfRange => "out of range",
    }
}
