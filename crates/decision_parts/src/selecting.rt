// What follows the walk of a decision: a selection, a substate, or a halt at the limit of goals.
ghost use Rattle.std.specs.Prelude.{◌≡◌, ◌<◌, Some, false, true, length, map, IfOk, OnOk};
ghost use Rattle.soar_goals.specs.Known.{AreItemsKnown};
ghost use Rattle.soar_sym.specs.Words.{IsKnown};
ghost use Rattle.defs_soar.specs.Agents.{Agent as AgentOf};
ghost use Rattle.defs_soar.specs.Resettling.{removal_events};
ghost use Rattle.decision_parts.specs.Deciding.{limit_step, selection_step, substate_step};
ghost use Rattle.decision_parts.specs.Stepping.{GoesStep};
ghost use Rattle.matching_laws.specs.Telling.{IsTold};
ghost use Rattle.step_report.specs.Reports.{removed_seen};
ghost use Rattle.trace_laws.specs.Events.{AreEventsKnown};
ghost use Rattle.wave_parts.specs.Seen.{IsSound, IsToSettle};
ghost use Rattle.wave_parts.specs.Stands.{Stands};

use crate::decision::Decision;
use crate::ending::end_decision;
use crate::pushing::push_goal;
use crate::saying::DecisionLine;
use defs_soar::{Impasse, Item};
use soar_sym::{List, Sym, Text};
use std::alloc::Global;
use step_report::Removed;
use trace_lines::{NewGoal, Selected, operator_name};
use wave_parts::{Parts, Stop, drop_word};

/// Settles once the last goal has an operator selected, and tells it by the name that it had before.
pub fn select(
    alloc: Global,
    parts: &mut Parts,
    removed: List<Removed>,
    operator: Sym,
    takes_word: bool,
    out: &mut Text,
    mid_line: &mut bool,
) -> Result<Decision, Stop>
    requires sound { IsToSettle parts.old }
    requires removed { AreEventsKnown parts.old.table (removal_events (map removed_seen removed)) }
    requires known { IsKnown parts.old.table operator }
    ensures step { (s : AgentOf) → Stands parts.old s
        → GoesStep parts.old.settings.watch mid_line.old (selection_step s (map removed_seen removed) (Some operator) takes_word) parts.new mid_line.new out.old out.new result }
    ensures limit { IfOk result (λ decision. decision.halted ≡ false) }
    ensures told { IfOk result (λ decision. IsTold parts.old.memory.elements parts.new.memory.elements decision.changes) }
    ensures kept { (parts.new.rules ≡ parts.old.rules) × (parts.new.settings ≡ parts.old.settings) }
    ensures live { parts.new.live.told ≡ parts.old.live.told }
    ensures sound { OnOk result (IsSound parts.new) }
{
    let name = operator_name(alloc, &parts.table, &parts.memory, operator)?;
    let selected = Selected {
        cycle: parts.cycles,
        below: parts.goals.list().len() - 1,
        operator,
        name,
    };
    drop_word(&mut parts.random, takes_word);
    let line = DecisionLine::Selection(selected);
    let changes = end_decision(alloc, parts, removed, line, out, mid_line)?;
    Ok(Decision {
        changes,
        halted: false,
    })
}

/// Makes a substate below the last goal, settles, and tells it.
pub fn make_substate(
    alloc: Global,
    parts: &mut Parts,
    removed: List<Removed>,
    why: Impasse,
    items: List<Item>,
    out: &mut Text,
    mid_line: &mut bool,
) -> Result<Decision, Stop>
    requires sound { IsToSettle parts.old }
    requires removed { AreEventsKnown parts.old.table (removal_events (map removed_seen removed)) }
    requires room { length parts.old.goals < 100 }
    requires known { AreItemsKnown parts.old.table items }
    ensures step { (s : AgentOf) → Stands parts.old s
        → GoesStep parts.old.settings.watch mid_line.old (substate_step s (map removed_seen removed) why items) parts.new mid_line.new out.old out.new result }
    ensures limit { IfOk result (λ decision. decision.halted ≡ false) }
    ensures told { IfOk result (λ decision. IsTold parts.old.memory.elements parts.new.memory.elements decision.changes) }
    ensures kept { (parts.new.rules ≡ parts.old.rules) × (parts.new.settings ≡ parts.old.settings) }
    ensures live { parts.new.live.told ≡ parts.old.live.told }
    ensures sound { OnOk result (IsSound parts.new) }
{
    let (cycle, below) = (parts.cycles, parts.goals.list().len());
    let goal = push_goal(alloc, parts, why, items)?;
    let made = NewGoal {
        cycle,
        below,
        goal,
        impasse: why,
    };
    let line = DecisionLine::Substate(made);
    let changes = end_decision(alloc, parts, removed, line, out, mid_line)?;
    Ok(Decision {
        changes,
        halted: false,
    })
}

/// Settles, and halts since a goal too many would be due.
pub fn halt_at_limit(
    alloc: Global,
    parts: &mut Parts,
    removed: List<Removed>,
    out: &mut Text,
    mid_line: &mut bool,
) -> Result<Decision, Stop>
    requires sound { IsToSettle parts.old }
    requires removed { AreEventsKnown parts.old.table (removal_events (map removed_seen removed)) }
    ensures step { (s : AgentOf) → Stands parts.old s
        → GoesStep parts.old.settings.watch mid_line.old (limit_step s (map removed_seen removed)) parts.new mid_line.new out.old out.new result }
    ensures limit { IfOk result (λ decision. decision.halted ≡ true) }
    ensures told { IfOk result (λ decision. IsTold parts.old.memory.elements parts.new.memory.elements decision.changes) }
    ensures kept { (parts.new.rules ≡ parts.old.rules) × (parts.new.settings ≡ parts.old.settings) }
    ensures live { parts.new.live.told ≡ parts.old.live.told }
    ensures sound { OnOk result (IsSound parts.new) }
{
    let changes = end_decision(
        alloc,
        parts,
        removed,
        DecisionLine::GoalLimit,
        out,
        mid_line,
    )?;
    parts.halted = true;
    Ok(Decision {
        changes,
        halted: true,
    })
}
