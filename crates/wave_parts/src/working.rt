// The firings of a wave, and what it learns from them, against what is there before it.
ghost use Rattle.std.specs.Prelude.{◌≡◌, map, IfOk};
ghost use Rattle.defs_match.specs.Rules.{rule_seen};
ghost use Rattle.pending_work.specs.Firables.{AreBound};
ghost use Rattle.soar_settle.specs.Known.{AreInstancesKnown};
ghost use Rattle.wave_learning.specs.Entries.{entry_seen};
ghost use Rattle.wave_parts.specs.Carrying.{IsPendingIn};
ghost use Rattle.wave_parts.specs.Lawful.{IsOfLawful};
ghost use Rattle.wave_parts.specs.Seen.{IsSound};
ghost use Rattle.wave_parts.specs.Working.{IsWorkedFrom, IsWorkedOut, WorksOut};

use crate::counting::count_more;
use crate::parts::Parts;
use agent_laws::{new_goals_depend_on_nothing, records_stay};
use firing_records::Before;
use learning_laws::agents_stay_lawful;
use pending_work::Work;
use program_laws::{learned_rules_match, learning_is_known, rules_join};
use rule_shelf::Rules;
use soar_settle::Stop;
use soar_sym::List;
use std::alloc::Global;
use std::mem::replace;
use wave_firings::{Fired, fire_all};
use wave_learning::{AtHand, Entry, LearnedRule, Program, learn};

/// What a wave came to: its entries, and whether a firing halts.
#[derive(Drop)]
pub struct WaveWorked {
    pub entries: List<Entry>,
    pub halted: bool,
}

impl Parts {
    /// Fires the instances of a work, and learns from what they make. Changes words, letters, rules with what is kept of
    /// them, and the counts of firings and of chunks.
    pub(crate) fn work_out(&mut self, alloc: Global, work: &Work) -> Result<WaveWorked, Stop>
        requires sound { IsSound self.old }
        requires lawful { IsOfLawful self.old }
        requires pending { IsPendingIn self.old work.now }
        requires bound { AreBound (map rule_seen self.old.rules) work.now.fired }
        requires known { AreInstancesKnown self.old.table work.now.fired }
        ensures answer { WorksOut self.old self.new work.now result }
        ensures from { IsWorkedFrom self.old self.new }
        ensures worked { IfOk result (λ worked. IsWorkedOut self.old self.new (map entry_seen worked.entries)) }
    {
        agents_stay_lawful();
        rules_join();
        learned_rules_match();
        learning_is_known();
        records_stay();
        new_goals_depend_on_nothing();
        let before = Before::new(
            alloc,
            self.goals.list(),
            &self.prefs,
            &self.memory,
            &self.kept,
        )?;
        let fired = fire_all(
            alloc,
            &mut self.table,
            &mut self.letters,
            &before,
            &self.rules,
            &work.fired,
            self.firings,
        )?;
        let Fired { entries, halted } = fired;
        let last = count_more(self.firings, work.fired.len() as u64)?;
        let program = take_program(
            alloc,
            &mut self.rules,
            self.last_rule,
            &mut self.chains,
            self.chunks,
            self.justifications,
        );
        let hand = learn(
            &mut self.table,
            &before,
            &self.past,
            self.settings.learning,
            self.settings.local_negations,
            AtHand {
                program,
                last,
                learned: self.learned,
                entries,
            },
        )?;
        let AtHand {
            program,
            last,
            learned,
            entries,
        } = hand;
        let Program {
            rules,
            last_rule,
            chains,
            chunks,
            justifications,
        } = program;
        self.rules = rules;
        self.last_rule = last_rule;
        self.chains = chains;
        self.chunks = chunks;
        self.justifications = justifications;
        self.firings = last;
        self.learned = learned;
        Ok(WaveWorked { entries, halted })
    }
}

/// The rules with what is kept of them, taken out.
fn take_program(
    alloc: Global,
    rules: &mut Rules,
    last_rule: u64,
    chains: &mut List<LearnedRule>,
    chunks: u64,
    justifications: u64,
) -> Program
    ensures { result ≡ record { rules = rules.old; last_rule = last_rule; chains = chains.old; chunks = chunks; justifications = justifications } }
{
    Program {
        rules: replace(rules, Rules::new(alloc)),
        last_rule,
        chains: replace(chains, List::new(alloc)),
        chunks,
        justifications,
    }
}
