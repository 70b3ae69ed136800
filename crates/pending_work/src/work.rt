ghost use Rattle.std.specs.Prelude.{◌≡◌, List as ListOf, map, IfOk};
ghost use Rattle.soar_sym.specs.Words.{Texts};
ghost use Rattle.defs_match.specs.Rules.{rule_seen};
ghost use Rattle.defs_match.specs.Conflict.{conflict};
ghost use Rattle.defs_soar.specs.Pending.{pending_in};
ghost use Rattle.pending_work.specs.Working.{is_nothing};
ghost use Rattle.pending_work.specs.Firables.{AreNumbered, AreBound, IsPending};
ghost use Rattle.pending_work.specs.Open.{IsOpen};
ghost use Rattle.outstanding.specs.Living.{live_seen};
ghost use Rattle.outstanding.specs.Live.{Live as LiveOf};
ghost use Rattle.outstanding.specs.Known.{AreElementsKnown, AreInstancesKnown};

use crate::active::of_active_level;
use crate::candidates::ready;
use defs_match::Instance;
use defs_soar::Goal;
use outstanding::{Live, Open};
use rule_shelf::Rules;
use soar_sym::{List, NoMemory};
use soar_wm::Memory;
use std::alloc::Global;

/// The work of a wave: the firings to retract as they are listed, and the instances to fire, by rule and by tags.
#[derive(Drop)]
pub struct Work {
    pub retracted: List<Live>,
    pub fired: List<Instance>,
}

impl Work {
    /// Whether nothing is pending.
    pub fn is_nothing(&self) -> bool
        ensures { result ≡ is_nothing self.now }
    {
        self.retracted.is_empty() && self.fired.is_empty()
    }
}

/// The work of the active level, which is the least that has any, where this is what is outstanding in the conflict set
/// (Soar manual, chapter 2, elaboration cycle). `proposing` leaves out the instances of operator kind.
pub fn pending(
    alloc: Global,
    proposing: bool,
    rules: &Rules,
    memory: &Memory,
    goals: &List<Goal>,
    left: Open,
) -> Result<Work, NoMemory>
    requires numbered { AreNumbered (map rule_seen rules.now) }
    requires left { (live : ListOf LiveOf) × IsOpen (conflict (map rule_seen rules.now) memory.now.elements) live left }
    ensures work { (live : ListOf LiveOf) → IsOpen (conflict (map rule_seen rules.now) memory.now.elements) live left
        → IfOk result (λ work. IsPending (map rule_seen rules.now) memory.now.elements work (pending_in proposing (map rule_seen rules.now) memory.now.elements goals.now (map live_seen live))) }
    // What a caller needs to fire these instances.
    ensures bound { IfOk result (λ work. AreBound (map rule_seen rules.now) work.fired) }
    ensures known { IfOk result (λ work. (words : Texts) → AreElementsKnown words memory.now.elements → AreInstancesKnown words work.fired) }
{
    let Open { unfired, unmatched } = left;
    let ready = ready(alloc, proposing, rules, memory, goals, unfired)?;
    of_active_level(alloc, goals.as_slice(), memory, unmatched, ready)
}
