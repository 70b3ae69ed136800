// Changes of the inputs at once.
ghost use Rattle.std.specs.Prelude.{◌≡◌, OnOk};
ghost use Rattle.defs_soar.specs.Agents.{Agent as AgentOf};
ghost use Rattle.cycle_parts.specs.Bonds.{Bond};
ghost use Rattle.cycle_parts.specs.Calls.{IsTripleGiven, input_step};
ghost use Rattle.decision_parts.specs.Stepping.{GoesStep};
ghost use Rattle.decision_parts.specs.Lawful.{IsOfLawful};
ghost use Rattle.decision_parts.specs.Seen.{IsSound};
ghost use Rattle.decision_parts.specs.Stands.{Stands};

use crate::engine::Engine;
use crate::triples::change_input;
use decision_parts::Stop;
use outstanding::Outstanding;
use soar_sym::{Text, Triple};
use std::alloc::Global;
use step_report::say_settled;

impl<M: Outstanding> Engine<M> {
    /// Adds a triple to the inputs, or takes it out, and settles.
    pub fn input_now(
        &mut self,
        alloc: Global,
        adds: bool,
        triple: Triple,
        out: &mut Text,
        mid_line: &mut bool,
    ) -> Result<(), Stop>
        requires sound { IsSound self.old.parts }
        requires lawful { IsOfLawful self.old.parts }
        requires bond { Bond (M.rules self.old.matcher) (M.elements self.old.matcher) (M.failed self.old.matcher) (M.knows self.old.matcher) self.old.parts }
        requires given { IsTripleGiven self.old.parts triple }
        ensures step { (s : AgentOf) → Stands self.old.parts s → GoesStep self.old.parts.settings.watch mid_line.old (input_step adds triple s) self.new.parts mid_line.new out.old out.new result }
        ensures table { self.new.parts.table ≡ self.old.parts.table }
        ensures settings { self.new.parts.settings ≡ self.old.parts.settings }
        ensures sound { OnOk result (IsSound self.new.parts) }
        ensures lawful { OnOk result (IsOfLawful self.new.parts) }
        ensures bond { OnOk result (Bond (M.rules self.new.matcher) (M.elements self.new.matcher) (M.failed self.new.matcher) (M.knows self.new.matcher) self.new.parts) }
    {
        change_input(&mut self.parts.inputs, adds, triple)?;
        self.parts.changed.push(triple)?;
        let settled = self.resettle(alloc)?;
        say_settled(
            self.parts.settings.watch,
            &self.parts.table,
            &settled,
            out,
            mid_line,
        )?;
        Ok(())
    }
}
