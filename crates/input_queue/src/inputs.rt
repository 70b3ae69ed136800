// Inputs once queued changes were made (Soar manual, chapter 2, input and output).
ghost use Rattle.std.specs.Prelude.{◌≡◌, ◌++◌, ◌∷◌, [], filter, map, not, IfOk, OnOk};
ghost use Rattle.soar_sym.specs.Words.{Texts};
ghost use Rattle.defs_soar.specs.Cycle.{with_change, with_changes};
ghost use Rattle.defs_soar.specs.Values.{has_triple_among, triple_eq};
ghost use Rattle.soar_settle.specs.Known.{AreTriplesKnown};
ghost use Rattle.input_queue.specs.Seen.{queued_seen, triple_queued};

use crate::queued::Queued;
use soar_sym::{List, NoMemory, Triple, is_triple};
use std::alloc::Global;

/// The inputs once the changes were made, the first of them first. Those that stay keep their order, and what joins goes
/// to the end.
pub fn changed_inputs(
    alloc: Global,
    inputs: &List<Triple>,
    queue: &List<Queued>,
) -> Result<List<Triple>, NoMemory>
    ensures changed { IfOk result (λ changed. changed ≡ with_changes inputs.now (map queued_seen queue.now)) }
    ensures known { (words : Texts) → AreTriplesKnown words inputs.now → AreTriplesKnown words (map triple_queued queue.now) → IfOk result (λ changed. AreTriplesKnown words changed) }
{
    let mut changed = List::from_slice(alloc, inputs.as_slice())?;
    change_all(alloc, &mut changed, queue.as_slice())?;
    Ok(changed)
}

/// Makes changes in turn.
fn change_all(alloc: Global, inputs: &mut List<Triple>, queue: &[Queued]) -> Result<(), NoMemory>
    ensures { OnOk result (inputs.new ≡ with_changes inputs.old (map queued_seen queue.now)) }
{
    'changes: for queued in queue {
        change(alloc, inputs, *queued)?;
    }
    Ok(())
}

/// Makes one change.
fn change(alloc: Global, inputs: &mut List<Triple>, queued: Queued) -> Result<(), NoMemory>
    ensures { OnOk result (inputs.new ≡ with_change inputs.old (queued_seen queued)) }
{
    if !queued.adds {
        *inputs = without_triple(alloc, inputs.as_slice(), queued.triple)?;
    } else if !has_triple(inputs.as_slice(), queued.triple) {
        inputs.push(queued.triple)?;
    }
    Ok(())
}

/// Whether a triple is among others.
fn has_triple(triples: &[Triple], triple: Triple) -> bool
    ensures { result ≡ has_triple_among triples.now triple }
{
    triples.iter().any(|other| is_triple(triple, *other))
}

/// The triples without those that are this one.
fn without_triple(
    alloc: Global,
    triples: &[Triple],
    triple: Triple,
) -> Result<List<Triple>, NoMemory>
    ensures { IfOk result (λ kept. kept ≡ filter (λ t. not (triple_eq t triple)) triples.now) }
{
    let mut kept = List::new(alloc);
    'triples: for other in triples {
        if !is_triple(*other, triple) {
            kept.push(*other)?;
        }
    }
    Ok(kept)
}
