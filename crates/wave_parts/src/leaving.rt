// What a wave takes away and adds, before all is settled.
ghost use Rattle.std.specs.Prelude.{◌≡◌, map};
ghost use Rattle.live_firings.specs.Living.{live_seen};
ghost use Rattle.wave_parts.specs.Leaving.{IsMadeFit, LeavesHere};
ghost use Rattle.wave_parts.specs.Seen.{IsSound};

use crate::living::{numbers_of, renew_live};
use crate::parts::Parts;
use defs_soar::Preference;
use live_firings::Live;
use row_laws::rows_fit_decisions;
use soar_settle::{Stop, renew};
use soar_sym::List;
use std::alloc::Global;

/// The rows that a wave added, and the numbers of the justifications that went with their firings.
#[derive(Drop)]
pub struct WaveLeft {
    pub added: List<Preference>,
    pub spent: List<u64>,
}

impl Parts {
    /// Takes away what a wave retracted, with the justifications that are spent then, and adds the rows and the live firings
    /// that it made.
    pub(crate) fn leave(
        &mut self,
        alloc: Global,
        retracted: &[Live],
        rows: &[Preference],
        live: List<Live>,
    ) -> Result<WaveLeft, Stop>
        requires sound { IsSound self.old }
        requires fit { IsMadeFit self.old rows.now (map live_seen live) }
        ensures answer { LeavesHere self.old self.new retracted.now rows.now live result }
        ensures same { self.new ≡ record self.old { rules = self.new.rules; chains = self.new.chains; prefs = self.new.prefs; live = self.new.live } }
        ensures live { self.new.live.told ≡ self.old.live.told }
    {
        rows_fit_decisions();
        let numbers = numbers_of(alloc, retracted)?;
        let gone = numbers.as_slice();
        let spent = self.drop_spent(alloc, retracted)?;
        let added = renew(alloc, &mut self.prefs, gone, rows)?;
        renew_live(&mut self.live, gone, live)?;
        Ok(WaveLeft { added, spent })
    }
}
