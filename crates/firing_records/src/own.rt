// The goals' own elements (Soar manual, chapter 2, impasses and substates).
ghost use Rattle.std.specs.Prelude.{IfOk};
ghost use Rattle.defs_soar.specs.Goals.{goal_elements};
ghost use Rattle.firing_records.specs.Own.{HasSame};

use defs_soar::Goal;
use kept_triples::{TripleSet, add_goal_elements};
use soar_sym::{List, NoMemory, Triple};
use std::alloc::Global;

/// The triples of the goals' own elements.
pub fn own_triples(alloc: Global, goals: &[Goal]) -> Result<TripleSet, NoMemory>
    ensures { IfOk result (λ own. HasSame own (goal_elements goals.now)) }
{
    let mut triples = List::new(alloc);
    add_goal_elements(&mut triples, goals)?;
    set_of(alloc, triples.as_slice())
}

fn set_of(alloc: Global, triples: &[Triple]) -> Result<TripleSet, NoMemory>
    ensures { IfOk result (λ set. HasSame set triples.now) }
{
    let mut set = TripleSet::new(alloc);
    'triples: for triple in triples {
        set.add(*triple)?;
    }
    Ok(set)
}
