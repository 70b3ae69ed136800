// Working memory with what is kept of it: the goals' own elements, and then others, which are inputs.
ghost use Rattle.std.specs.Prelude.{◌≡◌, ◌++◌, ◌∷◌, [], map, IfOk, OnOk};
ghost use Rattle.soar_wm.specs.WorkingMemory.{triple_of};
ghost use Rattle.settling_laws.specs.Changes.{own_triples};
ghost use Rattle.kept_triples.specs.Kept.{OwnIs};
ghost use Rattle.firing_records.specs.Levels.{TellsLevels};

use defs_soar::Goal;
use input_memory::Inputs;
use kept_triples::{Kept, Own, kept_levels_are_levels};
use soar_prefs::Prefs;
use soar_sym::{List, NoMemory, Triple};
use soar_wm::Memory;
use std::alloc::Global;

#[derive(Drop)]
pub struct World {
    pub memory: Memory,
    pub kept: Kept,
}

pub fn make_world(alloc: Global, goals: &List<Goal>, others: &[Triple]) -> Result<World, NoMemory>
    ensures { IfOk result (λ world. TellsLevels world.kept goals.now (map triple_of world.memory.elements)) }
{
    let kept = kept_with(alloc, goals, others)?;
    let memory = memory_of(alloc, kept.own(), others)?;
    Ok(World { memory, kept })
}

fn kept_with(alloc: Global, goals: &List<Goal>, others: &[Triple]) -> Result<Kept, NoMemory>
    ensures own { IfOk result (λ kept. OwnIs goals.now kept) }
    ensures tells { IfOk result (λ kept. TellsLevels kept goals.now (own_triples goals.now ++ others.now)) }
{
    kept_levels_are_levels();
    let prefs = Prefs::new(alloc, 0)?;
    let inputs = inputs_of(alloc, others)?;
    let mut kept = Kept::new(alloc)?;
    let own = Own::new(alloc, goals.as_slice())?;
    let mut changed = List::from_slice(alloc, own.triples())?;
    changed.extend_from_slice(others)?;
    kept.set_own(own);
    let mut touched = List::new(alloc);
    kept.reconsider(
        alloc,
        goals.as_slice(),
        &prefs,
        &inputs,
        changed.as_slice(),
        &mut touched,
    )?;
    Ok(kept)
}

fn inputs_of(alloc: Global, triples: &[Triple]) -> Result<Inputs, NoMemory>
    ensures { IfOk result (λ inputs. inputs ≡ triples.now) }
{
    let mut inputs = Inputs::new(alloc);
    'triples: for triple in triples {
        inputs.add(*triple)?;
    }
    Ok(inputs)
}

/// Working memory of these, with the tags from 1.
fn memory_of(alloc: Global, own: &[Triple], others: &[Triple]) -> Result<Memory, NoMemory>
    ensures { IfOk result (λ memory. map triple_of memory.elements ≡ own.now ++ others.now) }
{
    let mut memory = Memory::new(alloc, 100, 0)?;
    fill(&mut memory, own)?;
    fill(&mut memory, others)?;
    Ok(memory)
}

fn fill(memory: &mut Memory, triples: &[Triple]) -> Result<(), NoMemory>
    ensures { OnOk result (map triple_of memory.new.elements ≡ map triple_of memory.old.elements ++ triples.now) }
{
    'triples: for triple in triples {
        put(memory, *triple)?;
    }
    Ok(())
}

fn put(memory: &mut Memory, triple: Triple) -> Result<(), NoMemory>
    ensures { OnOk result (map triple_of memory.new.elements ≡ map triple_of memory.old.elements ++ triple ∷ []) }
{
    match memory.add(triple, false) {
        Ok(_) => Ok(()),
        Err(_) => Err(NoMemory),
    }
}
