ghost use Rattle.std.specs.Prelude.{◌≡◌, ◌≤◌, ◌-◌, [], suc, map, length, take, OnOk, List as ListOf};
ghost use Rattle.defs_soar.specs.History.{RecordedFiring};
ghost use Rattle.defs_soar.specs.Preferences.{without_firings};
ghost use Rattle.defs_soar.specs.Trimming.{numbers_of};
ghost use Rattle.settle_changes.specs.Rest.{GrowsBy, IsAtRest, IsTracked};
ghost use Rattle.goal_trimming.specs.Doubted.{AreDoubted};
ghost use Rattle.goal_trimming.specs.Held.{held_by, kept_held};
ghost use Rattle.live_firings.specs.Living.{live_above, live_from, live_seen};
ghost use Rattle.goal_trimming.specs.Trims.{AreDependencies, KeepsFirst, Trims};

use crate::broken::highest_broken;
use dependency_tables::Dependencies;
use input_memory::Inputs;
use kept_triples::Kept;
use live_firings::LiveFirings;
use settle_changes::{changes_are_tracked, rest_is_kept, settle_changes};
use soar_goals::Goals;
use soar_prefs::Prefs;
use soar_sym::{List, NoMemory, Triple};
use soar_wm::Memory;
use std::alloc::Global;

/// Settles, and as long as a goal below the top has lost an element on which it depends takes the highest such goal
/// away with all below it, and settles again (Soar manual, chapter 2, goal dependency sets). `depends` has the tags on
/// which each goal below the top depends, and `doubted` those of them that may be of elements that were gone when all
/// was settled; `changed` names the inputs that changed since, and `memory` is working memory from then. Looks only at
/// what changed, and at the tags of that, and notes in `touched` the triples that it looked at. Where memory is refused
/// nothing is promised.
pub fn trim(
    alloc: Global,
    goals: &mut Goals,
    depends: &mut Dependencies,
    doubted: &List<u32>,
    prefs: &mut Prefs,
    inputs: &mut Inputs,
    changed: &mut List<Triple>,
    live: &mut LiveFirings,
    kept: &mut Kept,
    touched: &mut List<Triple>,
    memory: &Memory,
) -> Result<(), NoMemory>
    requires fits { suc (length depends.old) ≡ length goals.old }
    requires tracked { IsTracked prefs.old inputs.old changed.old kept.old }
    requires doubted { AreDoubted depends.old memory.now.elements kept.old.triples doubted.now }
    ensures trims { let old = held_by goals.old depends.old prefs.old inputs.old live.old.list in
        let new = held_by goals.new depends.new prefs.new inputs.new live.new.list in
        (history : ListOf RecordedFiring) → AreDependencies history old → OnOk result (Trims history memory.now.elements old new (kept_held new)) }
    ensures keeps { OnOk result (KeepsFirst (held_by goals.old depends.old prefs.old inputs.old live.old.list) (held_by goals.new depends.new prefs.new inputs.new live.new.list)) }
    ensures rest { OnOk result (IsAtRest goals.new prefs.new.rows inputs.new kept.new) }
    ensures taken { OnOk result (prefs.new.settled ≡ prefs.new.rows) }
    ensures changed { OnOk result (changed.new ≡ []) }
    ensures touched { OnOk result (GrowsBy touched.old touched.new kept.old kept.new) }
    ensures told { live.new.told ≡ live.old.told }
    ensures whole { OnOk result (AreDoubted depends.new memory.now.elements kept.new.triples []) }
{
    rest_is_kept();
    changes_are_tracked();
    'rounds: loop {
        settle_changes(alloc, goals.list(), prefs, inputs, changed, kept, touched)?;
        let broken = highest_broken(alloc, memory, depends, kept, doubted, touched.as_slice())?;
        match broken {
            None => return Ok(()),
            Some(depth) => remove_from(depth, goals, depends, prefs, live),
        }
    }
}

/// Takes away the goal of a depth and all that are deeper, with what goes with them.
fn remove_from(
    depth: usize,
    goals: &mut Goals,
    depends: &mut Dependencies,
    prefs: &mut Prefs,
    live: &mut LiveFirings,
)
    requires substate { 2 ≤ depth }
    requires there { depth ≤ length goals.old }
    ensures goals { goals.new ≡ take (depth - 1) goals.old }
    ensures depends { depends.new ≡ take (depth - 2) depends.old }
    ensures rows { prefs.new ≡ record prefs.old { rows = without_firings prefs.old.rows (numbers_of (live_from depth (map live_seen live.old.list))) } }
    ensures live { map live_seen live.new.list ≡ live_above depth (map live_seen live.old.list) }
    ensures told { live.new.told ≡ live.old.told }
{
    goals.cut(depth);
    depends.cut(depth - 2);
    live.leave_goals(depth, prefs);
}
