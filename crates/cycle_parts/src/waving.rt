// A wave of a phase.
ghost use Rattle.std.specs.Prelude.{◌≡◌, map, IfOk, OnOk};
ghost use Rattle.defs_match.specs.Rules.{rule_seen};
ghost use Rattle.defs_soar.specs.Agents.{Agent as AgentOf};
ghost use Rattle.defs_soar.specs.Pending.{is_none};
ghost use Rattle.soar_settle.specs.Known.{AreInstancesKnown};
ghost use Rattle.trace_laws.specs.Events.{AreEventsKnown};
ghost use Rattle.step_report.specs.Reports.{report_events};
ghost use Rattle.cycle_parts.specs.Bonds.{Bond};
ghost use Rattle.cycle_parts.specs.Waving.{TellsWork, WavesFrom, is_proposing, waved_by, with_told};
ghost use Rattle.live_firings.specs.Living.{live_seen};
ghost use Rattle.pending_work.specs.Working.{is_nothing};
ghost use Rattle.decision_parts.specs.Carrying.{CarriesOut, IsPendingIn};
ghost use Rattle.pending_work.specs.Firables.{AreBound, IsPending};
ghost use Rattle.decision_parts.specs.Lawful.{IsOfLawful};
ghost use Rattle.decision_parts.specs.Seen.{AreLiveKnown, IsSound, pending_of};
ghost use Rattle.decision_parts.specs.Stands.{Stands};

use crate::engine::Engine;
use crate::retelling::{forget, take_up};
use crate::telling::tell;
use decision_parts::{Done, Stop, Work};
use outstanding::Outstanding;
use soar_sym::{NoMemory, Text};
use std::alloc::Global;
use step_report::say_report;
use trace_lines::Phase;

/// How a wave went: nothing was pending, or there was work, and a firing halted or none.
#[derive(Clone, Copy, PartialEq, Eq)]
pub enum Waved {
    Rest,
    Went,
    Halted,
}

impl<M: Outstanding> Engine<M> {
    /// Runs a wave of a phase, which may teach rules (Soar manual, chapter 2, elaboration cycle, and chapter 4, chunking),
    /// and appends what can be told of it.
    pub fn wave(
        &mut self,
        alloc: Global,
        phase: Phase,
        out: &mut Text,
        mid_line: &mut bool,
    ) -> Result<Waved, Stop>
        requires sound { IsSound self.old.parts }
        requires lawful { IsOfLawful self.old.parts }
        requires bond { Bond (M.rules self.old.matcher) (M.elements self.old.matcher) (M.failed self.old.matcher) (M.knows self.old.matcher) self.old.parts }
        ensures wave { (s : AgentOf) → Stands self.old.parts s
            → WavesFrom self.old.parts.settings.watch (is_proposing phase) s self.old.parts self.new.parts mid_line.old mid_line.new out.old out.new result }
        ensures settings { self.new.parts.settings ≡ self.old.parts.settings }
        ensures sound { OnOk result (IsSound self.new.parts) }
        ensures lawful { OnOk result (IsOfLawful self.new.parts) }
        ensures bond { OnOk result (Bond (M.rules self.new.matcher) (M.elements self.new.matcher) (M.failed self.new.matcher) (M.knows self.new.matcher) self.new.parts) }
    {
        let work = self.pending(alloc, phase)?;
        if work.is_nothing() {
            return Ok(Waved::Rest);
        }
        let done = self.carry_out(alloc, work)?;
        say_report(
            self.parts.settings.watch,
            &self.parts.table,
            &done.report,
            out,
            mid_line,
        )?;
        Ok(outcome_of(done.halted))
    }

    /// Whether something is pending.
    pub fn has_work(&mut self, alloc: Global, phase: Phase) -> Result<bool, Stop>
        requires sound { IsSound self.old.parts }
        requires bond { Bond (M.rules self.old.matcher) (M.elements self.old.matcher) (M.failed self.old.matcher) (M.knows self.old.matcher) self.old.parts }
        ensures work { (s : AgentOf) → Stands self.old.parts s → TellsWork (is_proposing phase) s result }
        ensures parts { self.new.parts ≡ with_told self.old.parts self.new.parts.live.told }
        ensures settings { self.new.parts.settings ≡ self.old.parts.settings }
        ensures bond { OnOk result (Bond (M.rules self.new.matcher) (M.elements self.new.matcher) (M.failed self.new.matcher) (M.knows self.new.matcher) self.new.parts) }
    {
        let work = self.pending(alloc, phase)?;
        Ok(!work.is_nothing())
    }

    /// The work of a wave, from what is outstanding.
    fn pending(&mut self, alloc: Global, phase: Phase) -> Result<Work, NoMemory>
        requires sound { IsSound self.old.parts }
        requires bond { Bond (M.rules self.old.matcher) (M.elements self.old.matcher) (M.failed self.old.matcher) (M.knows self.old.matcher) self.old.parts }
        ensures work { IfOk result (λ work. IsPending (map rule_seen self.old.parts.rules) self.old.parts.memory.elements work (pending_of (is_proposing phase) self.old.parts)) }
        ensures none { IfOk result (λ work. is_nothing work ≡ is_none (pending_of (is_proposing phase) self.old.parts)) }
        ensures bound { IfOk result (λ work. AreBound (map rule_seen self.old.parts.rules) work.fired) }
        ensures known { IfOk result (λ work. AreInstancesKnown self.old.parts.table work.fired) }
        ensures names { IfOk result (λ work. AreLiveKnown self.old.parts.table (map live_seen work.retracted)) }
        ensures parts { self.new.parts ≡ with_told self.old.parts self.new.parts.live.told }
        ensures settings { self.new.parts.settings ≡ self.old.parts.settings }
        ensures bond { OnOk result (Bond (M.rules self.new.matcher) (M.elements self.new.matcher) (M.failed self.new.matcher) (M.knows self.new.matcher) self.new.parts) }
    {
        let left = self.matcher.outstanding(alloc, &mut self.parts.live)?;
        self.parts.pending(alloc, is_proposing(phase), left)
    }

    /// Carries the work of a wave out, and tells the matcher which elements and rules went and which came.
    fn carry_out(&mut self, alloc: Global, work: Work) -> Result<Done, Stop>
        requires sound { IsSound self.old.parts }
        requires lawful { IsOfLawful self.old.parts }
        requires bond { Bond (M.rules self.old.matcher) (M.elements self.old.matcher) (M.failed self.old.matcher) (M.knows self.old.matcher) self.old.parts }
        requires pending { IsPendingIn self.old.parts work }
        requires bound { AreBound (map rule_seen self.old.parts.rules) work.fired }
        requires known { AreInstancesKnown self.old.parts.table work.fired }
        requires names { AreLiveKnown self.old.parts.table (map live_seen work.retracted) }
        ensures wave { CarriesOut self.old.parts self.new.parts work result }
        ensures known { IfOk result (λ done. AreEventsKnown self.new.parts.table (report_events done.report)) }
        ensures settings { self.new.parts.settings ≡ self.old.parts.settings }
        ensures sound { OnOk result (IsSound self.new.parts) }
        ensures lawful { OnOk result (IsOfLawful self.new.parts) }
        ensures bond { OnOk result (Bond (M.rules self.new.matcher) (M.elements self.new.matcher) (M.failed self.new.matcher) (M.knows self.new.matcher) self.new.parts) }
    {
        let last = self.parts.last_rule;
        let done = self.parts.carry_out(alloc, work)?;
        tell(&mut self.matcher, &done.report.settled.changes)?;
        forget(&mut self.matcher, done.spent.as_slice());
        take_up(&mut self.matcher, last, &self.parts.rules)?;
        Ok(done)
    }
}

/// Whether no operator is applied in a phase.
fn is_proposing(phase: Phase) -> bool
    ensures { result ≡ is_proposing phase }
{
    match phase {
        Phase::Proposal => true,
        Phase::Application => false,
    }
}

fn outcome_of(halted: bool) -> Waved
    ensures { result ≡ waved_by halted }
{
    if halted { Waved::Halted } else { Waved::Went }
}
