ghost use Rattle.std.specs.Prelude.{◌≡◌, suc, drop, take, length, map, IfOk, OnOk};
ghost use Rattle.defs_soar.specs.Agents.{Agent as AgentOf};
ghost use Rattle.defs_soar.specs.Trimming.{at_depths};
ghost use Rattle.matching_laws.specs.Telling.{IsTold};
ghost use Rattle.step_report.specs.Reports.{removed_seen, settled_events};
ghost use Rattle.trace_laws.specs.Events.{AreEventsKnown};
ghost use Rattle.wave_parts.specs.Resettles.{IsLeft, Resettles, ResettlesAll};
ghost use Rattle.wave_parts.specs.Seen.{IsSound, IsToSettle};
ghost use Rattle.wave_parts.specs.Stands.{Stands};

use crate::doubting::tags_of;
use crate::parts::Parts;
use crate::removing::{at_depths, behind};
use goal_trimming::{retag_touched, trim};
use matching_laws::changes_are_told;
use removal_laws::{removals_alone, removals_are_nested};
use settle_changes::rest_is_kept;
use soar_settle::Stop;
use soar_sym::List;
use std::alloc::Global;
use step_report::Settled;

impl Parts {
    /// Settles what is held, without the goals that lost something on which they depend, and makes working memory of
    /// it. Gives the goals that went, and what went from there and what came (Soar manual, chapter 2, support, goal
    /// dependency sets). Looks only at what changed since all was settled.
    pub fn resettle(&mut self, alloc: Global) -> Result<Settled, Stop>
        requires sound { IsToSettle self.old }
        ensures resettled { (s : AgentOf) → Stands self.old s → Resettles self.new s result }
        ensures each { ResettlesAll self.old self.new result }
        ensures first { OnOk result (self.new.goals ≡ take (length self.new.goals) self.old.goals) }
        ensures removed { IfOk result (λ settled. map removed_seen settled.removed ≡ at_depths (suc (length self.new.goals)) (drop (length self.new.goals) self.old.goals)) }
        ensures told { IfOk result (λ settled. IsTold self.old.memory.elements self.new.memory.elements settled.changes) }
        ensures known { IfOk result (λ settled. AreEventsKnown self.new.table (settled_events settled)) }
        ensures left { IsLeft self.old self.new }
        ensures live { self.new.live.told ≡ self.old.live.told }
        ensures sound { IfOk result (λ _. IsSound self.new) }
    {
        changes_are_told();
        removals_are_nested();
        removals_alone();
        rest_is_kept();
        self.table.law();
        let before = at_depths(alloc, self.goals.list().as_slice())?;
        let ids = List::from_slice(alloc, self.kept.ids())?;
        let mut touched = List::new(alloc);
        trim(
            alloc,
            &mut self.goals,
            &mut self.depends,
            &self.doubted,
            &mut self.prefs,
            &mut self.inputs,
            &mut self.changed,
            &mut self.live,
            &mut self.kept,
            &mut touched,
            &self.memory,
        )?;
        let removed = behind(alloc, before.as_slice(), self.goals.list().len())?;
        let changes = retag_touched(
            alloc,
            &self.table,
            ids.as_slice(),
            self.goals.list(),
            &self.kept,
            touched.as_slice(),
            &mut self.memory,
        )?;
        let doubted = tags_of(alloc, changes.gone.as_slice())?;
        self.doubted = doubted;
        Ok(Settled { removed, changes })
    }
}
