// Carrying out the work of a wave.
ghost use Rattle.std.specs.Prelude.{◌≡◌, ◌++◌, ◌||◌, drop, map, IfOk};
ghost use Rattle.agent_laws.specs.Dependence.{MakersAreEarlier};
ghost use Rattle.defs_match.specs.Rules.{rule_seen};
ghost use Rattle.goal_dependence.specs.Remembered.{firings_of, past_by, reach_over, tags_found_from, CanJoin};
ghost use Rattle.matching_laws.specs.Telling.{IsTold};
ghost use Rattle.soar_record.specs.Recorded.{recorded as kept_in};
ghost use Rattle.soar_settle.specs.Known.{AreInstancesKnown};
ghost use Rattle.wave_parts.specs.Carrying.{CarriesOut, IsPendingIn};
ghost use Rattle.wave_parts.specs.Lawful.{IsOfLawful};
ghost use Rattle.wave_parts.specs.Teaching.{AreRetaught};
ghost use Rattle.pending_work.specs.Firables.{AreBound};
ghost use Rattle.live_firings.specs.Living.{live_seen};
ghost use Rattle.step_report.specs.Reports.{report_events};
ghost use Rattle.trace_laws.specs.Events.{AreEventsKnown};
ghost use Rattle.wave_parts.specs.Seen.{AreLiveKnown, IsSound};

use crate::changing::WaveChange;
use crate::parts::Parts;
use agent_laws::dependencies_grow;
use defs_soar::Preference;
use firing_records::Recorded;
use goal_dependence::{remember, tags_found};
use learning_laws::agents_stay_lawful;
use pending_work::Work;
use session_laws::sessions_keep;
use soar_settle::Stop;
use soar_sym::{List, NoMemory};
use std::alloc::Global;
use step_report::Report;

/// What a wave did, as it is told, the numbers of the justifications that went with their firings, and whether a firing
/// halted.
#[derive(Drop)]
pub struct Done {
    pub report: Report,
    pub spent: List<u64>,
    pub halted: bool,
}

impl Parts {
    /// Carries the work of a wave out, and learns from it (Soar manual, chapter 2, elaboration cycle, and chapter 4,
    /// chunking).
    pub fn carry_out(&mut self, alloc: Global, work: Work) -> Result<Done, Stop>
        requires sound { IsSound self.old }
        requires lawful { IsOfLawful self.old }
        requires pending { IsPendingIn self.old work }
        requires bound { AreBound (map rule_seen self.old.rules) work.fired }
        requires known { AreInstancesKnown self.old.table work.fired }
        requires names { AreLiveKnown self.old.table (map live_seen work.retracted) }
        ensures wave { CarriesOut self.old self.new work result }
        ensures told { IfOk result (λ done. IsTold self.old.memory.elements self.new.memory.elements done.report.settled.changes) }
        ensures known { IfOk result (λ done. AreEventsKnown self.new.table (report_events done.report)) }
        ensures rules { IfOk result (λ done. AreRetaught self.old self.new done.spent) }
        ensures settings { self.new.settings ≡ self.old.settings }
        ensures live { self.new.live.told ≡ self.old.live.told }
        ensures sound { IfOk result (λ _. IsSound self.new) }
        ensures lawful { IfOk result (λ _. IsOfLawful self.new) }
    {
        let done = self.carry_and_record(alloc, work)?;
        self.forget(alloc)?;
        Ok(done)
    }

    /// The same, with each firing that was recorded kept.
    fn carry_and_record(&mut self, alloc: Global, work: Work) -> Result<Done, Stop>
        requires sound { IsSound self.old }
        requires lawful { IsOfLawful self.old }
        requires pending { IsPendingIn self.old work }
        requires bound { AreBound (map rule_seen self.old.rules) work.fired }
        requires known { AreInstancesKnown self.old.table work.fired }
        requires names { AreLiveKnown self.old.table (map live_seen work.retracted) }
        ensures wave { CarriesOut self.old self.new work result }
        ensures told { IfOk result (λ done. IsTold self.old.memory.elements self.new.memory.elements done.report.settled.changes) }
        ensures known { IfOk result (λ done. AreEventsKnown self.new.table (report_events done.report)) }
        ensures rules { IfOk result (λ done. AreRetaught self.old self.new done.spent) }
        ensures settings { self.new.settings ≡ self.old.settings }
        ensures live { self.new.live.told ≡ self.old.live.told }
        ensures sound { IfOk result (λ _. IsSound self.new) }
        ensures lawful { IfOk result (λ _. IsOfLawful self.new) }
    {
        agents_stay_lawful();
        sessions_keep();
        dependencies_grow();
        let change = self.change(alloc, &work)?;
        let WaveChange {
            recorded,
            told,
            added,
            spent,
            halted,
        } = change;
        let tags = self.tags_found(alloc, &recorded, &added)?;
        let settled = self.resettle(alloc)?;
        remember(
            &mut self.depends,
            &mut self.doubted,
            &mut self.past,
            recorded,
            &tags,
        )?;
        self.halted = either(self.halted, halted);
        let Work {
            retracted,
            fired: _,
        } = work;
        let report = Report {
            retracted,
            fired: told,
            settled,
        };
        Ok(Done {
            report,
            spent,
            halted,
        })
    }

    /// The tags that these firings and rows of a wave add to what each goal below the top depends on. The levels are those
    /// that are kept, so it is asked before all settles.
    fn tags_found(
        &self,
        alloc: Global,
        recorded: &List<Recorded>,
        added: &List<Preference>,
    ) -> Result<List<List<u32>>, NoMemory>
        requires sound { IsSound self.now }
        requires new { CanJoin (kept_in self.now.past) (firings_of recorded.now) }
        requires earlier { MakersAreEarlier (kept_in self.now.past ++ firings_of recorded.now) }
        ensures { IfOk result (λ tags. tags ≡ tags_found_from (kept_in self.now.past ++ firings_of recorded.now) (map (past_by (reach_over self.now.goals self.now.memory.elements) added.now) recorded.now) 2 (drop 1 self.now.goals)) }
    {
        tags_found(
            alloc,
            &self.kept,
            self.goals.list().as_slice(),
            &self.past,
            recorded.as_slice(),
            added.as_slice(),
        )
    }
}

fn either(a: bool, b: bool) -> bool
    ensures { result ≡ (a || b) }
{
    a || b
}
