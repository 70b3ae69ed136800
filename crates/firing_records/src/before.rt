ghost use Rattle.std.specs.Prelude.{◌≡◌, map, IfOk};
ghost use Rattle.soar_wm.specs.WorkingMemory.{triple_of};
ghost use Rattle.defs_soar.specs.Goals.{goal_elements};
ghost use Rattle.firing_records.specs.Levels.{TellsLevels};
ghost use Rattle.firing_records.specs.Own.{HasSame};

use crate::own::own_triples;
use defs_soar::Goal;
use kept_triples::{Kept, Prefs, TripleSet};
use soar_sym::{List, NoMemory, Triple};
use soar_wm::{Element, Memory};
use std::alloc::Global;

/// What is there before a wave, for its firings to be recorded against: the goals, preference memory, working
/// memory, and the levels of what the goals reach (Soar manual, chapter 4, backtracing).
#[derive(Drop)]
pub struct Before<'a> {
    pub alloc: Global,
    pub goals: &'a List<Goal>,
    pub prefs: &'a Prefs,
    pub memory: &'a Memory,
    pub levels: &'a Kept,
    pub(crate) own: TripleSet,
    ghost tells: { TellsLevels levels.now goals.now (map triple_of memory.now.elements) },
    ghost owns: { HasSame own (goal_elements goals.now) },
}

impl<'a> Before<'a> {
    /// Takes these, and finds the goals' own elements.
    pub fn new(
        alloc: Global,
        goals: &'a List<Goal>,
        prefs: &'a Prefs,
        memory: &'a Memory,
        levels: &'a Kept,
    ) -> Result<Before<'a>, NoMemory>
        requires { TellsLevels levels.now goals.now (map triple_of memory.now.elements) }
        ensures goals { IfOk result (λ before. before.goals.now ≡ goals.now) }
        ensures prefs { IfOk result (λ before. before.prefs.now ≡ prefs.now) }
        ensures memory { IfOk result (λ before. before.memory.now ≡ memory.now) }
        ensures levels { IfOk result (λ before. before.levels.now ≡ levels.now) }
    {
        let own = own_triples(alloc, goals.as_slice())?;
        Ok(Before {
            alloc,
            goals,
            prefs,
            memory,
            levels,
            own,
        })
    }
}

/// The triple of an element.
pub(crate) fn triple_of(element: Element) -> Triple
    ensures { result ≡ triple_of element }
{
    Triple {
        id: element.id,
        attr: element.attr,
        value: element.value,
        accept: element.accept,
    }
}
