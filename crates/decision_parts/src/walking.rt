// The walk of a decision over the goals of an agent.
ghost use Rattle.std.specs.Prelude.{◌≡◌, ◌≤◌, length, IfOk, OnOk};
ghost use Rattle.decision_walk.specs.Ends.{decided_seen};
ghost use Rattle.decision_walk.specs.Known.{IsDecidedKnown};
ghost use Rattle.defs_soar.specs.Agents.{Agent as AgentOf};
ghost use Rattle.decision_parts.specs.Deciding.{walk_of, walked_state};
ghost use Rattle.wave_parts.specs.Lawful.{IsOfLawful};
ghost use Rattle.wave_parts.specs.Seen.{IsSound, IsToSettle};
ghost use Rattle.wave_parts.specs.Stands.{Stands};

use decision_walk::{Decided, View, walk, walks_keep_goals};
use soar_sym::NoMemory;
use std::alloc::Global;
use wave_parts::{Parts, rows_fit_decisions};

/// Goes over the goals from the top down, and leaves those that stay. With the others go their firings and what these
/// hold up.
pub fn walk_goals(alloc: Global, parts: &mut Parts) -> Result<Decided, NoMemory>
    requires sound { IsSound parts.old }
    requires lawful { IsOfLawful parts.old }
    ensures decided { (s : AgentOf) → Stands parts.old s → IfOk result (λ decided. decided_seen decided ≡ (walk_of s).decided) }
    ensures stands { (s : AgentOf) → Stands parts.old s → OnOk result (Stands parts.new (walked_state s (walk_of s))) }
    ensures fewer { OnOk result (length parts.new.goals ≤ length parts.old.goals) }
    ensures known { IfOk result (λ decided. IsDecidedKnown parts.old.table (decided_seen decided)) }
    ensures kept { (parts.new.table ≡ parts.old.table) × (parts.new.rules ≡ parts.old.rules) × (parts.new.memory ≡ parts.old.memory) × (parts.new.settings ≡ parts.old.settings) }
    ensures live { parts.new.live.told ≡ parts.old.live.told }
    ensures sound { OnOk result (IsToSettle parts.new) }
{
    rows_fit_decisions();
    walks_keep_goals();
    let view = View {
        alloc,
        table: &parts.table,
        prefs: &parts.prefs,
        memory: &parts.memory,
        mode: parts.settings.mode,
        random: parts.random.as_slice(),
    };
    let decided = walk(&view, &mut parts.goals)?;
    let left = parts.goals.list().len();
    parts.live.leave_goals(left + 1, &mut parts.prefs);
    parts.depends.cut(left - 1);
    Ok(decided)
}
