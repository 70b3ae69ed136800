// Starting anew.
ghost use Rattle.std.specs.Prelude.{◌≡◌, OnOk};
ghost use Rattle.defs_soar.specs.Agents.{Agent as AgentOf};
ghost use Rattle.cycle_parts.specs.Bonds.{Bond};
ghost use Rattle.cycle_parts.specs.Calls.{restart_step};
ghost use Rattle.decision_parts.specs.Stepping.{QuietStep};
ghost use Rattle.decision_parts.specs.Lawful.{IsOfLawful};
ghost use Rattle.decision_parts.specs.Seen.{IsSound};
ghost use Rattle.decision_parts.specs.Stands.{Stands};

use crate::engine::Engine;
use crate::retelling::forget;
use crate::telling::tell_anew;
use decision_parts::Stop;
use outstanding::Outstanding;
use std::alloc::Global;

impl<M: Outstanding> Engine<M> {
    /// Starts anew: all is as at the start but words, settings and all rules but justifications (Soar manual, chapter 9,
    /// init-soar).
    pub fn restart(&mut self, alloc: Global) -> Result<(), Stop>
        requires sound { IsSound self.old.parts }
        requires lawful { IsOfLawful self.old.parts }
        requires bond { Bond (M.rules self.old.matcher) (M.elements self.old.matcher) (M.failed self.old.matcher) (M.knows self.old.matcher) self.old.parts }
        ensures step { (s : AgentOf) → Stands self.old.parts s → QuietStep (restart_step s) self.new.parts result }
        ensures table { self.new.parts.table ≡ self.old.parts.table }
        ensures settings { self.new.parts.settings ≡ self.old.parts.settings }
        ensures sound { OnOk result (IsSound self.new.parts) }
        ensures lawful { OnOk result (IsOfLawful self.new.parts) }
        ensures bond { OnOk result (Bond (M.rules self.new.matcher) (M.elements self.new.matcher) (M.failed self.new.matcher) (M.knows self.new.matcher) self.new.parts) }
    {
        let gone = self.parts.memory.all(alloc)?;
        let spent = self.parts.restart(alloc)?;
        forget(&mut self.matcher, spent.as_slice());
        let new = self.parts.memory.all(alloc)?;
        tell_anew(&mut self.matcher, gone.as_slice(), new.as_slice())?;
        Ok(())
    }
}
