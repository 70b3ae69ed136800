// The output phase.
ghost use Rattle.std.specs.Prelude.{◌≡◌, [], ◌∷◌, ◌++◌, map, if◌then◌else◌, OnOk};
ghost use Rattle.defs_soar.specs.Agents.{Agent as AgentOf};
ghost use Rattle.defs_soar.specs.Cycle.{after_output};
ghost use Rattle.defs_soar.specs.Events.{begins, halts, output_phase, shows, shows_no_longer};
ghost use Rattle.soar_settle.specs.Known.{AreTriplesKnown};
ghost use Rattle.step_report.specs.Saying.{SaysEvents};
ghost use Rattle.cycle_parts.specs.Bonds.{Bond};
ghost use Rattle.decision_parts.specs.Stepping.{GoesStep};
ghost use Rattle.decision_parts.specs.Lawful.{IsOfLawful};
ghost use Rattle.decision_parts.specs.Seen.{IsSound};
ghost use Rattle.decision_parts.specs.Stands.{Stands};

use crate::engine::Engine;
use decision_parts::{CyclePart, Stop};
use output_link::{OutputChanges, output_changes, output_of};
use outstanding::Outstanding;
use soar_sym::{NoMemory, SymTable, Text};
use std::alloc::Global;
use step_report::{begin_part, say_halt_at, say_outputs_at, says_in_turn};

impl<M: Outstanding> Engine<M> {
    /// Runs the output phase: what the output link shows no longer, then what is new there, and a halt (Soar manual,
    /// chapter 2, execution cycle).
    pub fn give_output(
        &mut self,
        alloc: Global,
        out: &mut Text,
        mid_line: &mut bool,
    ) -> Result<(), Stop>
        requires sound { IsSound self.old.parts }
        requires lawful { IsOfLawful self.old.parts }
        requires bond { Bond (M.rules self.old.matcher) (M.elements self.old.matcher) (M.failed self.old.matcher) (M.knows self.old.matcher) self.old.parts }
        ensures step { (s : AgentOf) → Stands self.old.parts s → GoesStep self.old.parts.settings.watch mid_line.old (after_output s) self.new.parts mid_line.new out.old out.new result }
        ensures settings { self.new.parts.settings ≡ self.old.parts.settings }
        ensures sound { OnOk result (IsSound self.new.parts) }
        ensures lawful { OnOk result (IsOfLawful self.new.parts) }
        ensures bond { OnOk result (Bond (M.rules self.new.matcher) (M.elements self.new.matcher) (M.failed self.new.matcher) (M.knows self.new.matcher) self.new.parts) }
    {
        let now = output_of(alloc, &self.parts.memory, self.parts.goals.list())?;
        let changes = output_changes(alloc, &self.parts.table, &self.parts.output, &now)?;
        say_output(
            self.parts.settings.watch,
            &self.parts.table,
            &changes,
            self.parts.halted,
            out,
            mid_line,
        )?;
        self.parts.output = now;
        Ok(())
    }
}

/// Appends the lines of an output phase.
fn say_output(
    watch: u8,
    table: &SymTable,
    changes: &OutputChanges,
    halted: bool,
    out: &mut Text,
    mid_line: &mut bool,
) -> Result<(), NoMemory>
    requires gone { AreTriplesKnown table.now changes.now.gone }
    requires new { AreTriplesKnown table.now changes.now.new }
    ensures { OnOk result (SaysEvents watch table.now (begins output_phase ∷ (map shows_no_longer changes.now.gone ++ (map shows changes.now.new ++ (if halted then halts ∷ [] else [])))) mid_line.old out.old mid_line.new out.new) }
{
    says_in_turn();
    begin_part(watch, table, CyclePart::Output, out, mid_line)?;
    say_outputs_at(
        watch,
        table,
        changes.gone.as_slice(),
        changes.new.as_slice(),
        out,
        mid_line,
    )?;
    say_halt_if(watch, table, halted, out, mid_line)?;
    Ok(())
}

/// Appends the line of a halt, where there is one.
fn say_halt_if(
    watch: u8,
    table: &SymTable,
    halted: bool,
    out: &mut Text,
    mid_line: &mut bool,
) -> Result<(), NoMemory>
    ensures { OnOk result (SaysEvents watch table.now (if halted then halts ∷ [] else []) mid_line.old out.old mid_line.new out.new) }
{
    if halted {
        say_halt_at(watch, table, out, mid_line)?;
    }
    Ok(())
}
