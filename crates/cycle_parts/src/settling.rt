// Settling what an agent holds, and telling its matcher.
ghost use Rattle.std.specs.Prelude.{◌≡◌, [], IfOk, OnOk};
ghost use Rattle.defs_soar.specs.Agents.{Agent as AgentOf};
ghost use Rattle.trace_laws.specs.Events.{AreEventsKnown};
ghost use Rattle.step_report.specs.Reports.{settled_events};
ghost use Rattle.cycle_parts.specs.Bonds.{Bond};
ghost use Rattle.cycle_parts.specs.Settling.{Settles};
ghost use Rattle.decision_parts.specs.Resettles.{resettled_now};
ghost use Rattle.decision_parts.specs.Seen.{IsSound};
ghost use Rattle.decision_parts.specs.Stands.{Stands};

use crate::engine::Engine;
use crate::telling::tell;
use decision_parts::Stop;
use outstanding::Outstanding;
use std::alloc::Global;
use step_report::Settled;

impl<M: Outstanding> Engine<M> {
    /// Settles what is held, makes working memory of it, and tells the matcher what went and what came.
    pub(crate) fn resettle(&mut self, alloc: Global) -> Result<Settled, Stop>
        requires sound { IsSound self.old.parts }
        requires bond { Bond (M.rules self.old.matcher) (M.elements self.old.matcher) (M.failed self.old.matcher) (M.knows self.old.matcher) self.old.parts }
        ensures settled { (s : AgentOf) → Stands self.old.parts s → Settles [] (resettled_now s) self.new.parts result }
        ensures known { IfOk result (λ settled. AreEventsKnown self.new.parts.table (settled_events settled)) }
        ensures table { self.new.parts.table ≡ self.old.parts.table }
        ensures settings { self.new.parts.settings ≡ self.old.parts.settings }
        ensures sound { OnOk result (IsSound self.new.parts) }
        ensures bond { OnOk result (Bond (M.rules self.new.matcher) (M.elements self.new.matcher) (M.failed self.new.matcher) (M.knows self.new.matcher) self.new.parts) }
    {
        let settled = self.parts.resettle(alloc)?;
        tell(&mut self.matcher, &settled.changes)?;
        Ok(settled)
    }
}
