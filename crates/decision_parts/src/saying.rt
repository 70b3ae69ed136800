// What a decision tells.
ghost use Rattle.std.specs.Prelude.{◌∷◌, [], ◌++◌, map, OnOk};
ghost use Rattle.decision_parts.specs.Saying.{IsLineKnown, decision_events, line_event, opening_events};
ghost use Rattle.step_report.specs.Reports.{settled_events};
ghost use Rattle.step_report.specs.Saying.{SaysEvents};
ghost use Rattle.trace_laws.specs.Events.{AreEventsKnown};

use soar_sym::{NoMemory, SymTable, Text};
use step_report::{
    Settled, begin_part, say_changes, say_goal_limit_at, say_removals, say_selection_at,
    say_substate_at, says_in_turn,
};
use trace_lines::{NewGoal, Selected};
use wave_parts::CyclePart;

/// The line of a decision.
#[derive(Clone, Copy)]
pub enum DecisionLine {
    Selection(Selected),
    Substate(NewGoal),
    GoalLimit,
}

/// Says that a decision begins, the goals that went, its line, and the elements that went and came.
pub fn say_decision(
    watch: u8,
    table: &SymTable,
    settled: &Settled,
    line: DecisionLine,
    out: &mut Text,
    mid_line: &mut bool,
) -> Result<(), NoMemory>
    requires known { AreEventsKnown table.now (settled_events settled.now) }
    requires line { IsLineKnown table.now line }
    ensures { OnOk result (SaysEvents watch table.now (decision_events settled.now (line_event line)) mid_line.old out.old mid_line.new out.new) }
{
    says_in_turn();
    open_decision(watch, table, settled, out, mid_line)?;
    say_line(watch, table, line, out, mid_line)?;
    say_changes(watch, table, &settled.changes, out, mid_line)
}

/// Says that a decision begins, and the goals that went.
fn open_decision(
    watch: u8,
    table: &SymTable,
    settled: &Settled,
    out: &mut Text,
    mid_line: &mut bool,
) -> Result<(), NoMemory>
    requires { AreEventsKnown table.now (settled_events settled.now) }
    ensures { OnOk result (SaysEvents watch table.now (opening_events settled.now) mid_line.old out.old mid_line.new out.new) }
{
    says_in_turn();
    begin_part(watch, table, CyclePart::Decision, out, mid_line)?;
    say_removals(watch, table, settled.removed.as_slice(), out, mid_line)
}

fn say_line(
    watch: u8,
    table: &SymTable,
    line: DecisionLine,
    out: &mut Text,
    mid_line: &mut bool,
) -> Result<(), NoMemory>
    requires { IsLineKnown table.now line }
    ensures { OnOk result (SaysEvents watch table.now (line_event line ∷ []) mid_line.old out.old mid_line.new out.new) }
{
    match line {
        DecisionLine::Selection(selected) => say_selection_at(
            watch, table, &selected, out, mid_line,
        ),
        DecisionLine::Substate(made) => say_substate_at(watch, table, &made, out, mid_line),
        DecisionLine::GoalLimit => say_goal_limit_at(watch, table, out, mid_line),
    }
}
