// Settling what is held once goals went.
ghost use Rattle.std.specs.Prelude.{◌≡◌, map, IfOk};
ghost use Rattle.defs_soar.specs.Agents.{Agent as AgentOf};
ghost use Rattle.defs_soar.specs.Resettling.{removal_events};
ghost use Rattle.decision_parts.specs.Settling.{SettlesFrom};
ghost use Rattle.matching_laws.specs.Telling.{IsTold};
ghost use Rattle.step_report.specs.Reports.{removed_seen, settled_events};
ghost use Rattle.trace_laws.specs.Events.{AreEventsKnown};
ghost use Rattle.wave_parts.specs.Resettles.{IsLeft};
ghost use Rattle.wave_parts.specs.Seen.{IsSound, IsToSettle};
ghost use Rattle.wave_parts.specs.Stands.{Stands};

use crate::merging::with_all_removed;
use removal_laws::{removals_apart, removals_are_nested};
use soar_sym::List;
use std::alloc::Global;
use step_report::{Removed, Settled};
use wave_parts::{Parts, Stop};

/// Settles what is held. Those of the goals that go are put among those that went before, by depth.
pub fn settle(alloc: Global, parts: &mut Parts, removed: List<Removed>) -> Result<Settled, Stop>
    requires sound { IsToSettle parts.old }
    requires known { AreEventsKnown parts.old.table (removal_events (map removed_seen removed)) }
    ensures settled { (s : AgentOf) → Stands parts.old s → SettlesFrom parts.new s (map removed_seen removed) result }
    ensures told { IfOk result (λ settled. IsTold parts.old.memory.elements parts.new.memory.elements settled.changes) }
    ensures known { IfOk result (λ settled. AreEventsKnown parts.new.table (settled_events settled)) }
    ensures left { IsLeft parts.old parts.new }
    ensures live { parts.new.live.told ≡ parts.old.live.told }
    ensures sound { IfOk result (λ _. IsSound parts.new) }
{
    removals_are_nested();
    removals_apart();
    let Settled {
        removed: later,
        changes,
    } = parts.resettle(alloc)?;
    let removed = with_all_removed(alloc, removed, later.as_slice())?;
    Ok(Settled { removed, changes })
}
