// The end of a decision: all settles, and then it is told.
ghost use Rattle.std.specs.Prelude.{◌≡◌, ◌∷◌, [], map, IfOk, OnOk};
ghost use Rattle.defs_soar.specs.Agents.{Agent as AgentOf};
ghost use Rattle.defs_soar.specs.Decision.{with_decision};
ghost use Rattle.defs_soar.specs.Resettling.{removal_events};
ghost use Rattle.decision_parts.specs.Deciding.{settled_from};
ghost use Rattle.decision_parts.specs.Saying.{IsLineKnown, line_event};
ghost use Rattle.decision_parts.specs.Stepping.{GoesStep};
ghost use Rattle.matching_laws.specs.Telling.{IsTold};
ghost use Rattle.step_report.specs.Reports.{removed_seen};
ghost use Rattle.trace_laws.specs.Events.{AreEventsKnown};
ghost use Rattle.wave_parts.specs.Resettles.{IsLeft};
ghost use Rattle.wave_parts.specs.Seen.{IsSound, IsToSettle};
ghost use Rattle.wave_parts.specs.Stands.{Stands};

use crate::saying::{DecisionLine, say_decision};
use crate::settling::settle;
use soar_sym::{List, Text};
use std::alloc::Global;
use step_report::Removed;
use wave_parts::{Changes, Parts, Stop};

/// Settles once these goals went, and tells the decision by its line. Nothing is said before all has settled, since a
/// limit may stop that.
pub fn end_decision(
    alloc: Global,
    parts: &mut Parts,
    removed: List<Removed>,
    line: DecisionLine,
    out: &mut Text,
    mid_line: &mut bool,
) -> Result<Changes, Stop>
    requires sound { IsToSettle parts.old }
    requires removed { AreEventsKnown parts.old.table (removal_events (map removed_seen removed)) }
    requires line { IsLineKnown parts.old.table line }
    ensures step { (s : AgentOf) → Stands parts.old s
        → GoesStep parts.old.settings.watch mid_line.old (with_decision (line_event line ∷ []) (settled_from s (map removed_seen removed))) parts.new mid_line.new out.old out.new result }
    ensures told { IfOk result (λ changes. IsTold parts.old.memory.elements parts.new.memory.elements changes) }
    ensures left { IsLeft parts.old parts.new }
    ensures live { parts.new.live.told ≡ parts.old.live.told }
    ensures sound { OnOk result (IsSound parts.new) }
{
    let settled = settle(alloc, parts, removed)?;
    say_decision(
        parts.settings.watch,
        &parts.table,
        &settled,
        line,
        out,
        mid_line,
    )?;
    Ok(settled.changes)
}
