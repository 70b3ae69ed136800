// The decision.
ghost use Rattle.std.specs.Prelude.{◌≡◌, map, IfOk, OnOk};
ghost use Rattle.decision_walk.specs.Ends.{decided_seen};
ghost use Rattle.decision_walk.specs.Known.{IsDecidedKnown};
ghost use Rattle.defs_soar.specs.Agents.{Agent as AgentOf};
ghost use Rattle.defs_soar.specs.Decision.{decided_by};
ghost use Rattle.defs_soar.specs.Resettling.{removal_events};
ghost use Rattle.decision_parts.specs.Deciding.{decision_step, impasse_step};
ghost use Rattle.decision_parts.specs.Stepping.{GoesStep};
ghost use Rattle.matching_laws.specs.Telling.{IsTold};
ghost use Rattle.soar_goals.specs.Known.{AreItemsKnown};
ghost use Rattle.step_report.specs.Reports.{removed_seen};
ghost use Rattle.trace_laws.specs.Events.{AreEventsKnown};
ghost use Rattle.wave_parts.specs.Lawful.{IsOfLawful};
ghost use Rattle.wave_parts.specs.Seen.{IsSound, IsToSettle};
ghost use Rattle.wave_parts.specs.Stands.{Stands};

use crate::decision::Decision;
use crate::leaving::{WalkEnd, walk_on};
use crate::selecting::{halt_at_limit, make_substate, select};
use decision_walk::Decided;
use defs_soar::{Impasse, Item};
use soar_sym::{List, Text};
use std::alloc::Global;
use step_report::Removed;
use wave_parts::{Parts, Stop};

/// How many goals there may be.
const MOST_GOALS: usize = 100;

/// Decides, from the top goal down: a selected operator that is left stays, else one that is left is selected; an impasse
/// makes a substate, unless the goal below is there for it (Soar manual, chapter 2, decision procedure). It is told at the
/// watch level of the settings: that it begins, the goals that went, its line, then elements.
pub fn decide(
    alloc: Global,
    parts: &mut Parts,
    out: &mut Text,
    mid_line: &mut bool,
) -> Result<Decision, Stop>
    requires sound { IsSound parts.old }
    requires lawful { IsOfLawful parts.old }
    ensures step { (s : AgentOf) → Stands parts.old s → GoesStep parts.old.settings.watch mid_line.old (decided_by s) parts.new mid_line.new out.old out.new result }
    ensures limit { (s : AgentOf) → Stands parts.old s → IfOk result (λ decision. decision.halted ≡ (decided_by s).halted) }
    ensures told { IfOk result (λ decision. IsTold parts.old.memory.elements parts.new.memory.elements decision.changes) }
    ensures rules { parts.new.rules ≡ parts.old.rules }
    ensures settings { parts.new.settings ≡ parts.old.settings }
    ensures live { parts.new.live.told ≡ parts.old.live.told }
    ensures sound { OnOk result (IsSound parts.new) }
{
    let end = walk_on(alloc, parts)?;
    follow(alloc, parts, end, out, mid_line)
}

/// What follows the walk.
fn follow(
    alloc: Global,
    parts: &mut Parts,
    end: WalkEnd,
    out: &mut Text,
    mid_line: &mut bool,
) -> Result<Decision, Stop>
    requires sound { IsToSettle parts.old }
    requires removed { AreEventsKnown parts.old.table (removal_events (map removed_seen end.removed)) }
    requires known { IsDecidedKnown parts.old.table (decided_seen end.decided) }
    ensures step { (s : AgentOf) → Stands parts.old s
        → GoesStep parts.old.settings.watch mid_line.old (decision_step s (map removed_seen end.removed) (decided_seen end.decided)) parts.new mid_line.new out.old out.new result }
    ensures limit { (s : AgentOf) → Stands parts.old s
        → IfOk result (λ decision. decision.halted ≡ (decision_step s (map removed_seen end.removed) (decided_seen end.decided)).halted) }
    ensures told { IfOk result (λ decision. IsTold parts.old.memory.elements parts.new.memory.elements decision.changes) }
    ensures kept { (parts.new.rules ≡ parts.old.rules) × (parts.new.settings ≡ parts.old.settings) }
    ensures live { parts.new.live.told ≡ parts.old.live.told }
    ensures sound { OnOk result (IsSound parts.new) }
{
    let WalkEnd { decided, removed } = end;
    match decided {
        Decided::Selects {
            operator,
            takes_word,
        } => select(alloc, parts, removed, operator, takes_word, out, mid_line),
        Decided::Meets { why, items } => meet(alloc, parts, removed, why, items, out, mid_line),
    }
}

/// An impasse at the last goal makes a substate, or halts the agent where there are as many goals as there may be.
fn meet(
    alloc: Global,
    parts: &mut Parts,
    removed: List<Removed>,
    why: Impasse,
    items: List<Item>,
    out: &mut Text,
    mid_line: &mut bool,
) -> Result<Decision, Stop>
    requires sound { IsToSettle parts.old }
    requires removed { AreEventsKnown parts.old.table (removal_events (map removed_seen removed)) }
    requires known { AreItemsKnown parts.old.table items }
    ensures step { (s : AgentOf) → Stands parts.old s
        → GoesStep parts.old.settings.watch mid_line.old (impasse_step s (map removed_seen removed) why items) parts.new mid_line.new out.old out.new result }
    ensures limit { (s : AgentOf) → Stands parts.old s → IfOk result (λ decision. decision.halted ≡ (impasse_step s (map removed_seen removed) why items).halted) }
    ensures told { IfOk result (λ decision. IsTold parts.old.memory.elements parts.new.memory.elements decision.changes) }
    ensures kept { (parts.new.rules ≡ parts.old.rules) × (parts.new.settings ≡ parts.old.settings) }
    ensures live { parts.new.live.told ≡ parts.old.live.told }
    ensures sound { OnOk result (IsSound parts.new) }
{
    if parts.goals.list().len() < MOST_GOALS {
        make_substate(alloc, parts, removed, why, items, out, mid_line)
    } else {
        halt_at_limit(alloc, parts, removed, out, mid_line)
    }
}
