// Recorded firings that nothing leads back to any more.
ghost use Rattle.std.specs.Prelude.{◌≡◌, ◌++◌, flat_map, map, IfOk, OnOk};
ghost use Rattle.defs_soar.specs.Agents.{Agent as AgentOf};
ghost use Rattle.defs_soar.specs.Standing.{makers_of_goal};
ghost use Rattle.live_firings.specs.Living.{live_seen};
ghost use Rattle.wave_parts.specs.Forgetting.{with_past};
ghost use Rattle.wave_parts.specs.Remembers.{roots_in};
ghost use Rattle.wave_parts.specs.Seen.{IsSound};
ghost use Rattle.wave_parts.specs.Stands.{Stands};

use crate::parts::Parts;
use defs_soar::Goal;
use live_firings::LiveFirings;
use record_keeping::keep_only;
use soar_prefs::Prefs;
use soar_sym::{List, NoMemory};
use std::alloc::Global;

impl Parts {
    /// Drops the recorded firings that no explanation needs, where so many were added since this was done last that it
    /// is worth to look for them.
    pub(crate) fn forget(&mut self, alloc: Global) -> Result<(), NoMemory>
        requires sound { IsSound self.old }
        ensures stands { (s : AgentOf) → Stands self.old s → OnOk result (Stands self.new s) }
        ensures sound { OnOk result (IsSound self.new) }
        ensures same { self.new ≡ with_past self.old self.new.past }
    {
        if !self.past.is_due() {
            return Ok(());
        }
        let roots = self.roots(alloc)?;
        keep_only(alloc, &mut self.past, roots.as_slice())?;
        Ok(())
    }

    /// The numbers of the firings at which explanations begin.
    fn roots(&self, alloc: Global) -> Result<List<u64>, NoMemory>
        ensures { IfOk result (λ roots. roots ≡ roots_in self.now) }
    {
        let mut roots = List::new(alloc);
        add_live(&mut roots, &self.live)?;
        add_rows(&mut roots, &self.prefs)?;
        add_selections(&mut roots, self.goals.list().as_slice())?;
        Ok(roots)
    }
}

/// The firings that were not retracted yet.
fn add_live(roots: &mut List<u64>, live: &LiveFirings) -> Result<(), NoMemory>
    ensures { OnOk result (roots.new ≡ roots.old ++ map (λ l. l.number) (map live_seen live.now.list)) }
{
    'live: for firing in live.all() {
        roots.push(firing.number)?;
    }
    Ok(())
}

/// The firings that made the rows of preference memory.
fn add_rows(roots: &mut List<u64>, prefs: &Prefs) -> Result<(), NoMemory>
    ensures { OnOk result (roots.new ≡ roots.old ++ map (λ row. row.firing) prefs.now.rows) }
{
    'rows: for row in prefs.rows() {
        roots.push(row.preference().firing)?;
    }
    Ok(())
}

/// The firings on which the selections of goals rest.
fn add_selections(roots: &mut List<u64>, goals: &[Goal]) -> Result<(), NoMemory>
    ensures { OnOk result (roots.new ≡ roots.old ++ flat_map makers_of_goal goals.now) }
{
    'goals: for goal in goals {
        if let Some(selection) = goal.selected {
            roots.push(selection.maker)?;
        }
    }
    Ok(())
}
