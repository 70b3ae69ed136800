// Changes of the inputs.
ghost use Rattle.std.specs.Prelude.{◌≡◌, ◌++◌, map, OnOk};
ghost use Rattle.cycle_parts.specs.Calls.{with_input};
ghost use Rattle.input_queue.specs.Seen.{triple_queued};

use input_memory::Inputs;
use input_queue::Queued;
use soar_sym::{List, NoMemory, Triple};

/// Adds a triple to the inputs, at the end, or takes it out.
pub fn change_input(inputs: &mut Inputs, adds: bool, triple: Triple) -> Result<(), NoMemory>
    ensures { OnOk result (inputs.new ≡ with_input adds triple inputs.old) }
{
    if adds {
        inputs.add(triple)
    } else {
        inputs.remove(triple);
        Ok(())
    }
}

/// Notes the triples of queued changes.
pub fn note_queued(changed: &mut List<Triple>, queue: &[Queued]) -> Result<(), NoMemory>
    ensures { OnOk result (changed.new ≡ changed.old ++ map triple_queued queue.now) }
{
    'queue: for queued in queue {
        changed.push(queued.triple)?;
    }
    Ok(())
}
