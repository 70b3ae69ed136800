// The lines of decisions, at a watch level.
ghost use Rattle.std.specs.Prelude.{[], ◌∷◌, IfSome, OnOk};
ghost use Rattle.soar_sym.specs.Words.{IsKnown};
ghost use Rattle.defs_soar.specs.Events.{reaches_goal_limit};
ghost use Rattle.trace_lines.specs.Saying.{goal_event, selection_event};
ghost use Rattle.step_report.specs.Saying.{SaysEvents};

use crate::phase::LINES;
use soar_sym::{NoMemory, SymTable, Text};
use trace_lines::{NewGoal, Selected, say_goal_limit, say_selection, say_substate};

/// Appends the line of a decision that selects an operator (level 1).
#[tactic(auto, unfolding(defs_soar::specs::Trace::pieces_of))]
pub fn say_selection_at(
    watch: u8,
    table: &SymTable,
    selected: &Selected,
    out: &mut Text,
    mid_line: &mut bool,
) -> Result<(), NoMemory>
    requires operator { IsKnown table.now selected.now.operator }
    requires name { IfSome selected.now.name (IsKnown table.now) }
    ensures { OnOk result (SaysEvents watch table.now (selection_event selected.now ∷ []) mid_line.old out.old mid_line.new out.new) }
{
    if watch < LINES {
        return Ok(());
    }
    say_selection(table, selected, out, mid_line)
}

/// Appends the line of a decision that makes a substate (level 1).
#[tactic(auto, unfolding(defs_soar::specs::Trace::pieces_of))]
pub fn say_substate_at(
    watch: u8,
    table: &SymTable,
    made: &NewGoal,
    out: &mut Text,
    mid_line: &mut bool,
) -> Result<(), NoMemory>
    requires { IsKnown table.now made.now.goal }
    ensures { OnOk result (SaysEvents watch table.now (goal_event made.now ∷ []) mid_line.old out.old mid_line.new out.new) }
{
    if watch < LINES {
        return Ok(());
    }
    say_substate(table, made, out, mid_line)
}

/// Appends the line of a decision that would make a goal below the hundredth (level 1).
#[tactic(auto, unfolding(defs_soar::specs::Trace::pieces_of))]
pub fn say_goal_limit_at(
    watch: u8,
    table: &SymTable,
    out: &mut Text,
    mid_line: &mut bool,
) -> Result<(), NoMemory>
    ensures { OnOk result (SaysEvents watch table.now (reaches_goal_limit ∷ []) mid_line.old out.old mid_line.new out.new) }
{
    if watch < LINES {
        return Ok(());
    }
    say_goal_limit(out, mid_line)
}
