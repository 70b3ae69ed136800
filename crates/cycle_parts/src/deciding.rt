// The decision.
ghost use Rattle.std.specs.Prelude.{◌≡◌, IfOk, OnOk};
ghost use Rattle.defs_soar.specs.Agents.{Agent as AgentOf};
ghost use Rattle.defs_soar.specs.Decision.{decided_by};
ghost use Rattle.cycle_parts.specs.Bonds.{Bond};
ghost use Rattle.decision_parts.specs.Stepping.{GoesStep};
ghost use Rattle.decision_parts.specs.Lawful.{IsOfLawful};
ghost use Rattle.decision_parts.specs.Seen.{IsSound};
ghost use Rattle.decision_parts.specs.Stands.{Stands};

use crate::engine::Engine;
use crate::telling::tell;
use decision_parts::{Stop, decide};
use outstanding::Outstanding;
use soar_sym::Text;
use std::alloc::Global;

impl<M: Outstanding> Engine<M> {
    /// Decides, from the top goal down: a selected operator that is left stays, else one that is left is selected; an
    /// impasse makes a substate, unless the goal below is there for it (Soar manual, chapter 2, decision procedure).
    /// Tells whether the limit of goals halts the agent.
    pub fn decide(
        &mut self,
        alloc: Global,
        out: &mut Text,
        mid_line: &mut bool,
    ) -> Result<bool, Stop>
        requires sound { IsSound self.old.parts }
        requires lawful { IsOfLawful self.old.parts }
        requires bond { Bond (M.rules self.old.matcher) (M.elements self.old.matcher) (M.failed self.old.matcher) (M.knows self.old.matcher) self.old.parts }
        ensures step { (s : AgentOf) → Stands self.old.parts s → GoesStep self.old.parts.settings.watch mid_line.old (decided_by s) self.new.parts mid_line.new out.old out.new result }
        ensures limit { (s : AgentOf) → Stands self.old.parts s → IfOk result (λ halted. halted ≡ (decided_by s).halted) }
        ensures settings { self.new.parts.settings ≡ self.old.parts.settings }
        ensures sound { OnOk result (IsSound self.new.parts) }
        ensures lawful { OnOk result (IsOfLawful self.new.parts) }
        ensures bond { OnOk result (Bond (M.rules self.new.matcher) (M.elements self.new.matcher) (M.failed self.new.matcher) (M.knows self.new.matcher) self.new.parts) }
    {
        let decision = decide(alloc, &mut self.parts, out, mid_line)?;
        tell(&mut self.matcher, &decision.changes)?;
        Ok(decision.halted)
    }
}
