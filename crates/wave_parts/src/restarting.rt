ghost use Rattle.std.specs.Prelude.{◌≡◌, [], map, IfOk, OnOk};
ghost use Rattle.defs_match.specs.Rules.{rule_seen};
ghost use Rattle.defs_soar.specs.Agents.{Agent as AgentOf};
ghost use Rattle.defs_soar.specs.Start.{first_elements, restarted};
ghost use Rattle.wave_parts.specs.Openings.{begun_anew};
ghost use Rattle.wave_parts.specs.Seen.{IsSound};
ghost use Rattle.wave_parts.specs.Stands.{Stands};
ghost use Rattle.wave_parts.specs.Teaching.{numbers_among, without_numbers};

use crate::parts::Parts;
use soar_sym::{List, NoMemory};
use std::alloc::Global;
use std::mem::replace;

impl Parts {
    /// Starts anew: working memory, goals, preferences, inputs, queues and counts as at the start; words, settings and all
    /// rules but justifications stay (Soar manual, chapter 9, init-soar). Gives the numbers of the justifications.
    pub fn restart(&mut self, alloc: Global) -> Result<List<u64>, NoMemory>
        requires { IsSound self.old }
        ensures restarted { (s : AgentOf) → Stands self.old s → OnOk result (Stands self.new (restarted s)) }
        ensures kept { (self.new.table ≡ self.old.table) × (self.new.settings ≡ self.old.settings) }
        ensures spent { IfOk result (λ spent. (spent ≡ numbers_among spent (map rule_seen self.old.rules))
            × (map rule_seen self.new.rules ≡ without_numbers spent (map rule_seen self.old.rules))) }
        ensures live { self.new.live.told ≡ self.old.live.told }
        ensures memory { OnOk result (self.new.memory.elements ≡ first_elements) }
        ensures sound { OnOk result (IsSound self.new) }
    {
        let spent = self.rules.justifications(alloc)?;
        let first = Parts::first(alloc, self.settings.watch)?;
        self.drop_justifications(spent.as_slice());
        self.begin_anew(first);
        Ok(spent)
    }

    /// Words, the program and settings stay, and all else becomes that of a first state.
    fn begin_anew(&mut self, first: Parts)
        ensures { self.new ≡ begun_anew first self.old }
    {
        self.end_firings();
        let Parts {
            table,
            rules,
            last_rule,
            chains,
            chunks,
            justifications,
            settings,
            live,
            ..
        } = replace(self, first);
        self.table = table;
        self.rules = rules;
        self.last_rule = last_rule;
        self.chains = chains;
        self.chunks = chunks;
        self.justifications = justifications;
        self.settings = settings;
        self.live = live;
    }

    /// No firing is live any more, and those that were told are told still. It takes no memory.
    fn end_firings(&mut self)
        ensures { self.new ≡ record self.old { prefs = self.new.prefs; live = record { list = []; told = self.old.live.told } } }
    {
        self.live.leave_goals(0, &mut self.prefs);
    }
}
