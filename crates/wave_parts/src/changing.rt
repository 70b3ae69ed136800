// A wave before all is settled.
ghost use Rattle.std.specs.Prelude.{◌≡◌, map};
ghost use Rattle.defs_match.specs.Rules.{rule_seen};
ghost use Rattle.pending_work.specs.Firables.{AreBound};
ghost use Rattle.soar_settle.specs.Known.{AreInstancesKnown};
ghost use Rattle.wave_parts.specs.Carrying.{IsPendingIn};
ghost use Rattle.wave_parts.specs.Changing.{Changes};
ghost use Rattle.wave_parts.specs.Lawful.{IsOfLawful};
ghost use Rattle.wave_parts.specs.Seen.{IsSound};

use crate::counting::count_more;
use crate::leaving::WaveLeft;
use crate::parts::Parts;
use crate::working::WaveWorked;
use defs_soar::Preference;
use firing_records::Recorded;
use pending_work::Work;
use soar_settle::Stop;
use soar_sym::List;
use std::alloc::Global;
use wave_learning::{Told, WaveMade, made_of};

/// What a wave did: its firings as they are recorded and told, the rows that it added, the numbers of the justifications
/// that went, and whether a firing halts.
#[derive(Drop)]
pub struct WaveChange {
    pub recorded: List<Recorded>,
    pub told: List<Told>,
    pub added: List<Preference>,
    pub spent: List<u64>,
    pub halted: bool,
}

impl Parts {
    /// Fires and learns, takes away what is retracted, and adds what was made. Counts the wave.
    pub(crate) fn change(&mut self, alloc: Global, work: &Work) -> Result<WaveChange, Stop>
        requires sound { IsSound self.old }
        requires lawful { IsOfLawful self.old }
        requires pending { IsPendingIn self.old work.now }
        requires bound { AreBound (map rule_seen self.old.rules) work.now.fired }
        requires known { AreInstancesKnown self.old.table work.now.fired }
        ensures answer { Changes self.old self.new work.now result }
        ensures settings { self.new.settings ≡ self.old.settings }
        ensures live { self.new.live.told ≡ self.old.live.told }
    {
        let waves = count_more(self.waves, 1)?;
        let retractions = count_more(self.retractions, work.retracted.len() as u64)?;
        let worked = self.work_out(alloc, work)?;
        let WaveWorked { entries, halted } = worked;
        let made = made_of(alloc, entries)?;
        let WaveMade {
            rows,
            live,
            recorded,
            told,
        } = made;
        let left = self.leave(alloc, work.retracted.as_slice(), rows.as_slice(), live)?;
        let WaveLeft { added, spent } = left;
        self.waves = waves;
        self.retractions = retractions;
        Ok(WaveChange {
            recorded,
            told,
            added,
            spent,
            halted,
        })
    }
}
