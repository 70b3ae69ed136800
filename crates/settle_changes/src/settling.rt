ghost use Rattle.std.specs.Prelude.{◌≡◌, [], OnOk};
ghost use Rattle.settle_changes.specs.Rest.{GrowsBy, IsAtRest, IsTracked, settled_from};

use crate::stages::{settle_inputs, settle_rows, take_up};
use defs_soar::Goal;
use input_memory::Inputs;
use kept_triples::Kept;
use soar_prefs::Prefs;
use soar_sym::{List, NoMemory, Triple};
use std::alloc::Global;

/// Takes away the inputs that are not of the top level and then the rows that no goal reaches (Soar manual,
/// chapter 2, support). Looks only at what changed since all was settled, and notes in `touched` the triples that
/// it looked at. Where memory is refused nothing is promised.
pub fn settle_changes(
    alloc: Global,
    goals: &List<Goal>,
    prefs: &mut Prefs,
    inputs: &mut Inputs,
    changed: &mut List<Triple>,
    kept: &mut Kept,
    touched: &mut List<Triple>,
) -> Result<(), NoMemory>
    requires tracked { IsTracked prefs.old inputs.old changed.old kept.old }
    ensures prefs { OnOk result (prefs.new ≡ record prefs.old { rows = (settled_from goals.now prefs.old.rows inputs.old).rows; settled = (settled_from goals.now prefs.old.rows inputs.old).rows }) }
    ensures inputs { OnOk result (inputs.new ≡ (settled_from goals.now prefs.old.rows inputs.old).inputs) }
    ensures rest { OnOk result (IsAtRest goals.now prefs.new.rows inputs.new kept.new) }
    ensures changed { OnOk result (changed.new ≡ []) }
    ensures touched { OnOk result (GrowsBy touched.old touched.new kept.old kept.new) }
{
    let goals = goals.as_slice();
    let mut ids = take_up(
        alloc,
        goals,
        prefs,
        inputs,
        changed.as_slice(),
        kept,
        touched,
    )?;
    settle_inputs(alloc, goals, prefs, inputs, &mut ids, kept, touched)?;
    settle_rows(alloc, goals, prefs, inputs, ids.as_slice(), kept, touched)?;
    *changed = List::new(alloc);
    Ok(())
}
