// The depths of goals.
ghost use Rattle.std.specs.Prelude.{◌≡◌, OnOk, option_map};
ghost use Rattle.soar_sym.specs.Equality.{symbol_eq};
ghost use Rattle.soar_sym.specs.declared.symbol.Sym.{Sym as SymOf};
ghost use Rattle.defs_soar.specs.Levels.{or_reached};
ghost use Rattle.level_graph.specs.Spreading.{where_so};
ghost use Rattle.level_laws.specs.Labels.{Labels, as_told, depth_of_goal};
ghost use Rattle.level_change.specs.Links.{level_at};
ghost use Rattle.level_change.specs.Passing.{KeptBut};

use crate::levels::{LateLevels, Levels};
use crate::told::{level_of, tell};
use soar_sym::{List, NoMemory, Sym};

/// Tells the depths of the goals that have no level, and lets those goals wait.
pub fn tell_goals(
    levels: &Levels,
    told: &mut LateLevels,
    goals: &[Sym],
    waiting: &mut List<Sym>,
    moved: &mut List<Sym>,
) -> Result<(), NoMemory>
    ensures told { OnOk result ((s : SymOf) → level_at levels.now.entries told.new.entries s ≡ or_reached (level_at levels.now.entries told.old.entries s) (option_map as_told (depth_of_goal goals.now s))) }
    ensures waiting { OnOk result ((old : Labels) → KeptBut old (level_at levels.now.entries told.old.entries) waiting.old → KeptBut old (level_at levels.now.entries told.new.entries) waiting.new) }
    ensures moved { OnOk result ((old : Labels) → KeptBut old (level_at levels.now.entries told.old.entries) moved.old → KeptBut old (level_at levels.now.entries told.new.entries) moved.new) }
{
    let mut depth = 1;
    'goals: for goal in goals {
        tell_goal(levels, told, *goal, depth, waiting, moved)?;
        depth = depth.saturating_add(1);
    }
    Ok(())
}

/// Tells the depth of a goal that has no level, and lets it wait.
fn tell_goal(
    levels: &Levels,
    told: &mut LateLevels,
    goal: Sym,
    depth: u32,
    waiting: &mut List<Sym>,
    moved: &mut List<Sym>,
) -> Result<(), NoMemory>
    ensures told { OnOk result ((s : SymOf) → level_at levels.now.entries told.new.entries s ≡ or_reached (level_at levels.now.entries told.old.entries s) (where_so (symbol_eq s goal) depth)) }
    ensures waiting { OnOk result ((old : Labels) → KeptBut old (level_at levels.now.entries told.old.entries) waiting.old → KeptBut old (level_at levels.now.entries told.new.entries) waiting.new) }
    ensures moved { OnOk result ((old : Labels) → KeptBut old (level_at levels.now.entries told.old.entries) moved.old → KeptBut old (level_at levels.now.entries told.new.entries) moved.new) }
{
    if level_of(levels, told, goal).is_none() {
        waiting.push(goal)?;
        moved.push(goal)?;
        tell(told, goal, depth)?;
    }
    Ok(())
}
