// The input phase.
ghost use Rattle.std.specs.Prelude.{◌≡◌, [], ◌∷◌, IfOk, OnOk};
ghost use Rattle.defs_soar.specs.Agents.{Agent as AgentOf};
ghost use Rattle.defs_soar.specs.Cycle.{after_input};
ghost use Rattle.defs_soar.specs.Events.{begins, input_phase};
ghost use Rattle.trace_laws.specs.Events.{AreEventsKnown};
ghost use Rattle.step_report.specs.Saying.{SaysEvents};
ghost use Rattle.step_report.specs.Reports.{settled_events};
ghost use Rattle.cycle_parts.specs.Bonds.{Bond};
ghost use Rattle.cycle_parts.specs.Settling.{Settles};
ghost use Rattle.decision_parts.specs.Stepping.{GoesStep};
ghost use Rattle.decision_parts.specs.Lawful.{IsOfLawful};
ghost use Rattle.decision_parts.specs.Seen.{IsSound};
ghost use Rattle.decision_parts.specs.Stands.{Stands};

use crate::engine::Engine;
use crate::triples::note_queued;
use decision_parts::{CyclePart, Stop, count_more};
use input_queue::make_changes;
use outstanding::Outstanding;
use soar_sym::{List, NoMemory, SymTable, Text};
use std::alloc::Global;
use step_report::{Settled, begin_part, say_settled, says_in_turn};

impl<M: Outstanding> Engine<M> {
    /// Runs the input phase: one cycle more, and the queued changes of the inputs in order (Soar manual, chapter 2,
    /// execution cycle).
    pub fn take_input(
        &mut self,
        alloc: Global,
        out: &mut Text,
        mid_line: &mut bool,
    ) -> Result<(), Stop>
        requires sound { IsSound self.old.parts }
        requires lawful { IsOfLawful self.old.parts }
        requires bond { Bond (M.rules self.old.matcher) (M.elements self.old.matcher) (M.failed self.old.matcher) (M.knows self.old.matcher) self.old.parts }
        ensures step { (s : AgentOf) → Stands self.old.parts s → GoesStep self.old.parts.settings.watch mid_line.old (after_input s) self.new.parts mid_line.new out.old out.new result }
        ensures settings { self.new.parts.settings ≡ self.old.parts.settings }
        ensures sound { OnOk result (IsSound self.new.parts) }
        ensures lawful { OnOk result (IsOfLawful self.new.parts) }
        ensures bond { OnOk result (Bond (M.rules self.new.matcher) (M.elements self.new.matcher) (M.failed self.new.matcher) (M.knows self.new.matcher) self.new.parts) }
    {
        let settled = self.settle_queued(alloc)?;
        say_input(
            self.parts.settings.watch,
            &self.parts.table,
            &settled,
            out,
            mid_line,
        )?;
        Ok(())
    }

    /// Counts the cycle, in which nothing was learned yet, applies the queued changes of the inputs, and settles.
    fn settle_queued(&mut self, alloc: Global) -> Result<Settled, Stop>
        requires sound { IsSound self.old.parts }
        requires bond { Bond (M.rules self.old.matcher) (M.elements self.old.matcher) (M.failed self.old.matcher) (M.knows self.old.matcher) self.old.parts }
        ensures step { (s : AgentOf) → Stands self.old.parts s → Settles (begins input_phase ∷ []) (after_input s) self.new.parts result }
        ensures known { IfOk result (λ settled. AreEventsKnown self.new.parts.table (settled_events settled)) }
        ensures settings { self.new.parts.settings ≡ self.old.parts.settings }
        ensures sound { OnOk result (IsSound self.new.parts) }
        ensures bond { OnOk result (Bond (M.rules self.new.matcher) (M.elements self.new.matcher) (M.failed self.new.matcher) (M.knows self.new.matcher) self.new.parts) }
    {
        let cycles = count_more(self.parts.cycles, 1)?;
        make_changes(&mut self.parts.inputs, self.parts.queue.as_slice())?;
        note_queued(&mut self.parts.changed, self.parts.queue.as_slice())?;
        self.parts.queue = List::new(alloc);
        self.parts.cycles = cycles;
        self.parts.learned = 0;
        self.resettle(alloc)
    }
}

/// Appends the lines of an input phase.
fn say_input(
    watch: u8,
    table: &SymTable,
    settled: &Settled,
    out: &mut Text,
    mid_line: &mut bool,
) -> Result<(), NoMemory>
    requires { AreEventsKnown table.now (settled_events settled.now) }
    ensures { OnOk result (SaysEvents watch table.now (begins input_phase ∷ settled_events settled.now) mid_line.old out.old mid_line.new out.new) }
{
    says_in_turn();
    begin_part(watch, table, CyclePart::Input, out, mid_line)?;
    say_settled(watch, table, settled, out, mid_line)?;
    Ok(())
}
