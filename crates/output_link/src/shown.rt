// What walks from the output link reach (Soar manual, chapter 2, input and output).
ghost use Rattle.std.specs.Prelude.{◌≡◌, IfOk, map};
ghost use Rattle.soar_sym.specs.Words.{Texts};
ghost use Rattle.defs_soar.specs.Agents.{Agent};
ghost use Rattle.defs_soar.specs.Cycle.{output_of};
ghost use Rattle.soar_settle.specs.Known.{AreElementsKnown, AreTriplesKnown};

use crate::walking::{ids_of, shown_by_tag};
use defs_soar::Goal;
use soar_sym::{List, NoMemory, Triple};
use soar_wm::Memory;
use std::alloc::Global;
use std::collections::BTreeMap;

/// What the output link shows: the triples of what walks from it reach, its own among them, in order of tag. A walk
/// does not go on through a goal, and a goal's own triples are not shown.
pub fn output_of(
    alloc: Global,
    memory: &Memory,
    goals: &List<Goal>,
) -> Result<List<Triple>, NoMemory>
    ensures shown { (a : Agent) → a.holding.goals ≡ goals.now → a.holding.elements ≡ memory.now.elements → IfOk result (λ shown. shown ≡ output_of a) }
    ensures known { (words : Texts) → AreElementsKnown words memory.now.elements → IfOk result (λ shown. AreTriplesKnown words shown) }
{
    let ids = ids_of(alloc, goals.as_slice())?;
    let kept = shown_by_tag(alloc, memory, &ids)?;
    triples_of(alloc, kept)
}

fn triples_of(alloc: Global, kept: BTreeMap<u32, Triple>) -> Result<List<Triple>, NoMemory>
    ensures { IfOk result (λ triples. triples ≡ map (λ e. e.1) kept.entries) }
{
    Ok(List::from_vec(kept.into_values().collect(alloc)?))
}
