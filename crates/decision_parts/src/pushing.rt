// A substate below the last goal.
ghost use Rattle.std.specs.Prelude.{◌≡◌, ◌+◌, ◌<◌, length, IfOk, OnOk};
ghost use Rattle.soar_sym.specs.Letters.{last_of};
ghost use Rattle.soar_goals.specs.Known.{AreItemsKnown};
ghost use Rattle.defs_soar.specs.Agents.{Agent as AgentOf};
ghost use Rattle.decision_parts.specs.Pushing.{PushesGoal};
ghost use Rattle.wave_parts.specs.Seen.{IsToSettle};
ghost use Rattle.wave_parts.specs.Stands.{Stands};

use agent_laws::dependencies_grow;
use defs_soar::{Impasse, Item, Which};
use soar_goals::GoalFault;
use soar_sym::{List, Sym};
use std::alloc::Global;
use wave_parts::{Parts, Stop};

/// Puts a new state below the last goal. Nothing is settled yet.
pub fn push_goal(
    alloc: Global,
    parts: &mut Parts,
    why: Impasse,
    items: List<Item>,
) -> Result<Sym, Stop>
    requires sound { IsToSettle parts.old }
    requires room { length parts.old.goals < 100 }
    requires known { AreItemsKnown parts.old.table items }
    ensures pushes { (s : AgentOf) → Stands parts.old s → PushesGoal s why items parts.new result }
    ensures goal { IfOk result (λ goal. goal ≡ Sym.Ident 83 (last_of parts.old.letters 83 + 1)) }
    ensures kept { (parts.new.table ≡ parts.old.table) × (parts.new.rules ≡ parts.old.rules) × (parts.new.memory ≡ parts.old.memory) × (parts.new.settings ≡ parts.old.settings) }
    ensures live { parts.new.live.told ≡ parts.old.live.told }
    ensures sound { OnOk result (IsToSettle parts.new) }
{
    dependencies_grow();
    let Ok(goal) = parts.letters.next(b'S') else {
        return Err(Stop::Limit(Which::Identifiers));
    };
    match parts.goals.push(goal, why, items) {
        Ok(()) => {}
        Err(GoalFault::NoMemory) => return Err(Stop::NoMemory),
        Err(GoalFault::TooDeep) => unreachable!(),
    }
    parts.depends.push(alloc)?;
    Ok(goal)
}
