// The line of a decision that makes a substate, and that of one that may not.
ghost use Rattle.std.specs.Prelude.{◌≡◌, [], string_bytes, IfOk, OnErr, OnOk};
ghost use Rattle.soar_sym.specs.Words.{IsKnown};
ghost use Rattle.defs_soar.specs.Events.{reaches_goal_limit};
ghost use Rattle.defs_soar.specs.Trace.{impasse_text, piece_of};
ghost use Rattle.trace_lines.specs.Saying.{SaysLine, SaysNothing, goal_event, text_of_line};

use crate::line::say_line;
use crate::texts::{indent_text, symbol_text};
use defs_soar::Impasse;
use soar_sym::{NoMemory, Sym, SymTable, Text};
use std::alloc::Global;

/// A goal that was made below another.
#[derive(Clone, Copy)]
pub struct NewGoal {
    /// The number of the cycle, from 1.
    pub cycle: u64,

    /// How many goals it is below the top: 1 for the first substate.
    pub below: usize,

    /// Its identifier.
    pub goal: Sym,

    /// Why it is there.
    pub impasse: Impasse,
}

/// Appends the line of a decision that makes a substate, as `3:   ==>S: S2 (tie)`.
pub fn say_substate(
    table: &SymTable,
    goal: &NewGoal,
    out: &mut Text,
    mid_line: &mut bool,
) -> Result<(), NoMemory>
    requires { IsKnown table.now goal.now.goal }
    ensures ok { OnOk result (SaysLine table.now (goal_event goal.now) mid_line.old out.old mid_line.new out.new) }
    ensures err { OnErr result (SaysNothing mid_line.old out.old mid_line.new out.new) }
{
    let text = substate_text(out.allocator(), table, goal)?;
    say_line(out, mid_line, text.as_str())
}

fn substate_text(alloc: Global, table: &SymTable, goal: &NewGoal) -> Result<String, NoMemory>
    requires { IsKnown table.now goal.now.goal }
    ensures { IfOk result (λ text. string_bytes text ≡ text_of_line (piece_of table.now (goal_event goal.now))) }
{
    let indent = indent_text(alloc, goal.below)?;
    let state = symbol_text(alloc, table, goal.goal)?;
    let (cycle, impasse) = (goal.cycle, impasse_text(goal.impasse));
    let (indent, state) = (indent.as_str(), state.as_str());
    Ok(format!(in alloc; "{cycle}: {indent}==>S: {state} ({impasse})")?)
}

fn impasse_text(impasse: Impasse) -> &'static str
    ensures { result.now ≡ impasse_text impasse }
{
    match impasse {
        Impasse::Top => "none",
        Impasse::Tie => "tie",
        Impasse::Conflict => "conflict",
        Impasse::Constraint => "constraint-failure",
        Impasse::StateNoChange => "state no-change",
        Impasse::OperatorNoChange => "operator no-change",
    }
}

/// Appends the line of a decision that would make a goal below the hundredth.
pub fn say_goal_limit(out: &mut Text, mid_line: &mut bool) -> Result<(), NoMemory>
    ensures ok { OnOk result (SaysLine [] reaches_goal_limit mid_line.old out.old mid_line.new out.new) }
    ensures err { OnErr result (SaysNothing mid_line.old out.old mid_line.new out.new) }
{
    say_line(out, mid_line, "goal depth 100")
}
