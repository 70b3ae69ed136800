// The line of a refusal.
ghost use Rattle.std.specs.Prelude.{◌≡◌, ◌++◌, false, OnOk};
ghost use Rattle.defs_soar.specs.Trace.{line_text};
ghost use Rattle.defs_run.specs.Orders.{refusal_text};
ghost use Rattle.session_parts.specs.Reasons.{IsReasonKnown, refusal_by};

use crate::origin::Origin;
use crate::reasons::{Reason, text_of};
use crate::said::say_line;
use soar_sym::{NoMemory, SymTable, Text};

/// Says that a command was refused.
pub fn say_refusal(
    table: &SymTable,
    origin: &Origin<'_>,
    reason: &Reason<'_>,
    out: &mut Text,
    mid_line: &mut bool,
) -> Result<(), NoMemory>
    requires { IsReasonKnown table.now reason.now }
    ensures { OnOk result ((out.new ≡ out.old ++ line_text mid_line.old (refusal_text (refusal_by table.now reason.now) origin.now.source.now origin.now.line)) × (mid_line.new ≡ false)) }
{
    let number = reason.number();
    let source = origin.source;
    let line = origin.line;
    let reason = text_of(out.allocator(), table, reason)?;
    let reason = reason.as_str();
    let text = format!(in out.allocator(); "error {number} {source}:{line}: {reason}")?;
    say_line(out, mid_line, text.as_str())
}
