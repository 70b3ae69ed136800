// The three stages: what changed is taken up, inputs go, rows go.
ghost use Rattle.std.specs.Prelude.{◌≡◌, IfOk, OnOk};
ghost use Rattle.settling_laws.specs.Once.{top_inputs};
ghost use Rattle.kept_triples.specs.Kept.{HoldsTriples, OwnIs};
ghost use Rattle.settle_changes.specs.Rest.{GrowsBy, IsTracked};
ghost use Rattle.settle_changes.specs.Stages.{IsTakenUp, IsUpToDate, reached_rows, supports};

use crate::leaving::{drop_inputs, drop_rows};
use crate::looking::{below_top, looked_at, unreached};
use crate::naming::changes;
use defs_soar::Goal;
use input_memory::Inputs;
use kept_triples::{Kept, Own, kept_levels_are_levels};
use soar_prefs::Prefs;
use soar_sym::{List, NoMemory, Sym, Triple};
use std::alloc::Global;

/// Looks again at all that changed. Gives the identifiers of what it looked at, and those that moved.
pub fn take_up(
    alloc: Global,
    goals: &[Goal],
    prefs: &mut Prefs,
    inputs: &Inputs,
    changed: &[Triple],
    kept: &mut Kept,
    touched: &mut List<Triple>,
) -> Result<List<Sym>, NoMemory>
    requires tracked { IsTracked prefs.old inputs.now changed.now kept.old }
    ensures prefs { OnOk result (prefs.new ≡ record prefs.old { settled = prefs.old.rows }) }
    ensures state { IfOk result (λ ids. IsTakenUp goals.now prefs.old.rows inputs.now ids kept.new) }
    ensures touched { OnOk result (GrowsBy touched.old touched.new kept.old kept.new) }
{
    kept_levels_are_levels();
    let own = Own::new(alloc, goals)?;
    let names = changes(alloc, &own, kept, prefs, changed)?;
    kept.set_own(own);
    kept.reconsider(alloc, goals, prefs, inputs, names.as_slice(), touched)?;
    let ids = looked_at(alloc, names.as_slice(), kept.moved())?;
    Ok(ids)
}

/// Takes away the inputs that are not of the top level. All that go are of these identifiers. Adds the identifiers that
/// moved by that.
pub fn settle_inputs(
    alloc: Global,
    goals: &[Goal],
    prefs: &Prefs,
    inputs: &mut Inputs,
    ids: &mut List<Sym>,
    kept: &mut Kept,
    touched: &mut List<Triple>,
) -> Result<(), NoMemory>
    requires state { IsTakenUp goals.now prefs.now.rows inputs.old ids.old kept.old }
    ensures inputs { OnOk result (inputs.new ≡ top_inputs goals.now (supports prefs.now.rows inputs.old)) }
    ensures state { OnOk result (IsUpToDate goals.now prefs.now.rows inputs.new ids.new kept.new) }
    ensures touched { OnOk result (GrowsBy touched.old touched.new kept.old kept.new) }
{
    kept_levels_are_levels();
    let below = below_top(alloc, kept, ids.as_slice())?;
    let gone = drop_inputs(alloc, below.as_slice(), inputs)?;
    kept.reconsider(alloc, goals, prefs, inputs, gone.as_slice(), touched)?;
    ids.extend_from_slice(kept.moved())?;
    Ok(())
}

/// Takes away the rows that no goal reaches. All that go are of these identifiers.
pub fn settle_rows(
    alloc: Global,
    goals: &[Goal],
    prefs: &mut Prefs,
    inputs: &Inputs,
    ids: &[Sym],
    kept: &mut Kept,
    touched: &mut List<Triple>,
) -> Result<(), NoMemory>
    requires settled { prefs.old.settled ≡ prefs.old.rows }
    requires state { IsUpToDate goals.now prefs.old.rows inputs.now ids.now kept.old }
    ensures prefs { OnOk result (prefs.new ≡ record prefs.old { rows = reached_rows goals.now prefs.old.rows inputs.now; settled = reached_rows goals.now prefs.old.rows inputs.now }) }
    ensures holds { OnOk result (HoldsTriples goals.now (reached_rows goals.now prefs.old.rows inputs.now) inputs.now kept.new) }
    ensures own { OnOk result (OwnIs goals.now kept.new) }
    ensures touched { OnOk result (GrowsBy touched.old touched.new kept.old kept.new) }
{
    kept_levels_are_levels();
    let ids = unreached(alloc, kept, ids)?;
    drop_rows(ids.as_slice(), prefs);
    let gone = prefs.take_changes(alloc)?;
    kept.reconsider(alloc, goals, prefs, inputs, gone.as_slice(), touched)?;
    Ok(())
}
