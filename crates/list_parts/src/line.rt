// A line, all or nothing of it.
ghost use Rattle.std.specs.Prelude.{◌≡◌, ◌++◌, false, string_bytes, IfOk, OnErr, OnOk};
ghost use Rattle.defs_soar.specs.Trace.{line_text};
ghost use Rattle.trace_lines.specs.Saying.{SaysNothing};

use soar_sym::{NoMemory, Text};
use std::alloc::{AllocError, Global};

/// Appends a line, on a line of its own.
pub fn say_line(out: &mut Text, mid_line: &mut bool, line: &str) -> Result<(), NoMemory>
    ensures ok { OnOk result ((out.new ≡ out.old ++ line_text mid_line.old line.now) × (mid_line.new ≡ false)) }
    ensures err { OnErr result (SaysNothing mid_line.old out.old mid_line.new out.new) }
{
    let text = line_behind(out.allocator(), *mid_line, line)?;
    out.push_str(text.as_str())?;
    *mid_line = false;
    Ok(())
}

/// A line with its newline, and one in front where text ended in the middle of a line.
fn line_behind(alloc: Global, mid_line: bool, line: &str) -> Result<String, AllocError>
    ensures { IfOk result (λ text. string_bytes text ≡ line_text mid_line line.now) }
{
    if mid_line {
        Ok(format!(in alloc; "\n{line}\n")?)
    } else {
        Ok(format!(in alloc; "{line}\n")?)
    }
}
