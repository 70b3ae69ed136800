ghost use Rattle.std.specs.Prelude.{◌≡◌, map, IfOk};
ghost use Rattle.defs_match.specs.Rules.{rule_seen};
ghost use Rattle.defs_match.specs.Conflict.{conflict};
ghost use Rattle.defs_soar.specs.Pending.{is_none};
ghost use Rattle.live_firings.specs.Living.{live_seen};
ghost use Rattle.pending_work.specs.Firables.{AreBound, IsPending};
ghost use Rattle.pending_work.specs.Open.{IsOpen};
ghost use Rattle.pending_work.specs.Working.{is_nothing};
ghost use Rattle.soar_settle.specs.Known.{AreInstancesKnown};
ghost use Rattle.wave_parts.specs.Seen.{AreLiveKnown, IsSound, pending_of};

use crate::parts::Parts;
use pending_work::{Open, Work, pending};
use soar_sym::NoMemory;
use std::alloc::Global;

impl Parts {
    /// The work of the active level, which is the least that has any, where this is what is outstanding in the conflict
    /// set (Soar manual, chapter 2, elaboration cycle). `proposing` leaves out the instances of operator kind.
    pub fn pending(&self, alloc: Global, proposing: bool, left: Open) -> Result<Work, NoMemory>
        requires sound { IsSound self.now }
        requires left { IsOpen (conflict (map rule_seen self.now.rules) self.now.memory.elements) self.now.live.list left }
        ensures work { IfOk result (λ work. IsPending (map rule_seen self.now.rules) self.now.memory.elements work (pending_of proposing self.now)) }
        ensures none { IfOk result (λ work. is_nothing work ≡ is_none (pending_of proposing self.now)) }
        // What carrying it out asks.
        ensures bound { IfOk result (λ work. AreBound (map rule_seen self.now.rules) work.fired) }
        ensures known { IfOk result (λ work. AreInstancesKnown self.now.table work.fired) }
        ensures names { IfOk result (λ work. AreLiveKnown self.now.table (map live_seen work.retracted)) }
    {
        pending(
            alloc,
            proposing,
            &self.rules,
            &self.memory,
            self.goals.list(),
            left,
        )
    }
}
