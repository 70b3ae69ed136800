// What is kept at the start.
ghost use Rattle.std.specs.Prelude.{[], IfOk, OnOk};
ghost use Rattle.kept_triples.specs.Kept.{HoldsTriples, OwnIs};
ghost use Rattle.settle_changes.specs.Rest.{IsAtRest};

use defs_soar::Goal;
use input_memory::Inputs;
use kept_triples::Kept;
use settle_changes::{changes_are_tracked, settle_changes};
use soar_prefs::Prefs;
use soar_sym::{List, NoMemory};
use std::alloc::Global;

/// What is kept of goals alone, without preferences and inputs.
pub fn first_kept(alloc: Global, goals: &List<Goal>) -> Result<Kept, NoMemory>
    ensures { IfOk result (λ kept. IsAtRest goals.now [] [] kept) }
{
    let mut kept = Kept::new(alloc)?;
    keep_goals(alloc, goals, &mut kept)?;
    Ok(kept)
}

/// Keeps what goals alone hold, where nothing was kept.
fn keep_goals(alloc: Global, goals: &List<Goal>, kept: &mut Kept) -> Result<(), NoMemory>
    requires holds { HoldsTriples [] [] [] kept.old }
    requires own { OwnIs [] kept.old }
    ensures { OnOk result (IsAtRest goals.now [] [] kept.new) }
{
    changes_are_tracked();
    let mut prefs = Prefs::new(alloc, 0)?;
    let mut inputs = Inputs::new(alloc);
    let mut changed = List::new(alloc);
    let mut touched = List::new(alloc);
    settle_changes(
        alloc,
        goals,
        &mut prefs,
        &mut inputs,
        &mut changed,
        kept,
        &mut touched,
    )
}
