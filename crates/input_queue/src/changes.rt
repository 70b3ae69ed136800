// Queued changes, made on the inputs where they stand (Soar manual, chapter 2, input and output).
ghost use Rattle.std.specs.Prelude.{◌≡◌, false, map, OnOk};
ghost use Rattle.soar_sym.specs.Words.{Texts};
ghost use Rattle.soar_sym.specs.declared.symbol.Triple.{Triple as TripleOf};
ghost use Rattle.defs_soar.specs.Cycle.{with_change, with_changes};
ghost use Rattle.defs_soar.specs.Values.{has_triple_among};
ghost use Rattle.input_memory.specs.Plain.{has_plain};
ghost use Rattle.soar_settle.specs.Known.{AreTriplesKnown};
ghost use Rattle.input_queue.specs.Seen.{queued_seen, triple_queued};

use crate::queued::Queued;
use input_memory::Inputs;
use soar_sym::NoMemory;

/// Makes the queued changes of the inputs, the first of them first. Those that stay keep their order, and what joins goes
/// to the end. Where memory is refused some are made.
pub fn make_changes(inputs: &mut Inputs, queue: &[Queued]) -> Result<(), NoMemory>
    ensures changed { OnOk result (inputs.new ≡ with_changes inputs.old (map queued_seen queue.now)) }
    ensures known { (words : Texts) → AreTriplesKnown words inputs.old → AreTriplesKnown words (map triple_queued queue.now) → OnOk result (AreTriplesKnown words inputs.new) }
    ensures covers { OnOk result ((t : TripleOf) → has_plain (map triple_queued queue.now) t ≡ false → has_triple_among inputs.new t ≡ has_triple_among inputs.old t) }
{
    make_all(inputs, queue)?;
    Ok(())
}

/// Makes changes in turn.
fn make_all(inputs: &mut Inputs, queue: &[Queued]) -> Result<(), NoMemory>
    ensures { OnOk result (inputs.new ≡ with_changes inputs.old (map queued_seen queue.now)) }
{
    'changes: for queued in queue {
        make_change(inputs, *queued)?;
    }
    Ok(())
}

/// Makes one change.
fn make_change(inputs: &mut Inputs, queued: Queued) -> Result<(), NoMemory>
    ensures { OnOk result (inputs.new ≡ with_change inputs.old (queued_seen queued)) }
{
    if !queued.adds {
        inputs.remove(queued.triple);
    } else if !inputs.has(queued.triple) {
        inputs.add(queued.triple)?;
    }
    Ok(())
}
