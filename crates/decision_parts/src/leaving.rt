// The walk of a decision, with the goals that it leaves behind.
ghost use Rattle.std.specs.Prelude.{◌≡◌, map, IfOk, OnOk};
ghost use Rattle.decision_walk.specs.Ends.{decided_seen};
ghost use Rattle.decision_walk.specs.Known.{IsDecidedKnown};
ghost use Rattle.defs_soar.specs.Agents.{Agent as AgentOf};
ghost use Rattle.defs_soar.specs.Resettling.{removal_events};
ghost use Rattle.decision_parts.specs.Deciding.{removed_in_walk, walk_of, walked_state};
ghost use Rattle.step_report.specs.Reports.{removed_seen};
ghost use Rattle.trace_laws.specs.Events.{AreEventsKnown};
ghost use Rattle.wave_parts.specs.Lawful.{IsOfLawful};
ghost use Rattle.wave_parts.specs.Seen.{IsSound, IsToSettle};
ghost use Rattle.wave_parts.specs.Stands.{Stands};

use crate::walking::walk_goals;
use decision_walk::Decided;
use removal_laws::cuts_remove;
use soar_sym::{List, NoMemory};
use std::alloc::Global;
use step_report::Removed;
use wave_parts::{Parts, at_depths, behind};

/// How a walk ends, and the goals that it left behind.
#[derive(Drop)]
pub struct WalkEnd {
    pub decided: Decided,
    pub removed: List<Removed>,
}

/// Goes over the goals from the top down, and leaves those that stay.
pub fn walk_on(alloc: Global, parts: &mut Parts) -> Result<WalkEnd, NoMemory>
    requires sound { IsSound parts.old }
    requires lawful { IsOfLawful parts.old }
    ensures decided { (s : AgentOf) → Stands parts.old s → IfOk result (λ end. decided_seen end.decided ≡ (walk_of s).decided) }
    ensures removed { (s : AgentOf) → Stands parts.old s → IfOk result (λ end. map removed_seen end.removed ≡ removed_in_walk s) }
    ensures stands { (s : AgentOf) → Stands parts.old s → OnOk result (Stands parts.new (walked_state s (walk_of s))) }
    ensures known { IfOk result (λ end. IsDecidedKnown parts.old.table (decided_seen end.decided)) }
    ensures removed_known { IfOk result (λ end. AreEventsKnown parts.old.table (removal_events (map removed_seen end.removed))) }
    ensures kept { (parts.new.table ≡ parts.old.table) × (parts.new.rules ≡ parts.old.rules) × (parts.new.memory ≡ parts.old.memory) × (parts.new.settings ≡ parts.old.settings) }
    ensures live { parts.new.live.told ≡ parts.old.live.told }
    ensures sound { OnOk result (IsToSettle parts.new) }
{
    cuts_remove();
    let before = at_depths(alloc, parts.goals.list().as_slice())?;
    let decided = walk_goals(alloc, parts)?;
    let removed = behind(alloc, before.as_slice(), parts.goals.list().len())?;
    Ok(WalkEnd { decided, removed })
}
