ghost use Rattle.std.specs.Prelude.{◌≡◌, false, [], map, IfOk};
ghost use Rattle.std.specs.Borrow.{Lends, sem};
ghost use Rattle.std.specs.Option.{option_copied, option_map};
ghost use Rattle.soar_sym.specs.Words.{Texts};
ghost use Rattle.soar_sym.specs.contracts.table.SymTable as table;
ghost use Rattle.defs_run.specs.Carrying.{chain_of_rule};
ghost use Rattle.defs_soar.specs.History.{chain_seen};
ghost use Rattle.defs_soar.specs.Start.{first_agent};
ghost use Rattle.defs_soar.specs.Values.{has_triple_among};
ghost use Rattle.learning_laws.specs.Lawful.{Grown};
ghost use Rattle.learning_laws.specs.LawfulAgents.{EachOnce};
ghost use Rattle.soar_cycle.specs.Agents.{IsSoundAgent, with_table};
ghost use Rattle.soar_cycle.specs.Counting.{counts_in};
ghost use Rattle.soar_cycle.specs.contracts.agent.Agent as agent;
ghost use Rattle.cycle_phases.specs.Hands.{learned_rule_seen};
ghost use Rattle.cycle_phases.specs.Stands.{Stands};

use crate::counts::{Counts, counts_in};
use crate::explaining::chain_of_rule;
use crate::standing::Standing;
use cycle_phases::{Engine, Settings, Stop};
use defs_soar::{Chain, Goal};
use outstanding::Outstanding;
use rule_shelf::Rules;
use soar_prefs::Prefs;
use soar_sym::{Letters, List, NoMemory, SymTable, Triple};
use soar_wm::Memory;
use std::alloc::Global;
use std::marker::Model;

/// An agent over any matcher, which holds its rules and working memory.
#[derive(Drop)]
pub struct Agent<M: Outstanding> {
    pub(crate) engine: Engine<M>,
    pub(crate) mid_line: bool,
    pub(crate) standing: Standing,
    pub(crate) alloc: Global,
}

impl<M: Outstanding> Model for Agent<M> {
    ghost use Rattle.std.specs.Coded.{codes};
    ghost use Rattle.defs_match.specs.contracts.rule.Rule as rule;
    ghost use Rattle.soar_cycle.specs.Agents.{AgentSeen, IsBound, agent_seen};

    ghost Value = { AgentSeen };

    ghost coded = { Prim.hlevel (codes, rule.the_row.coded) };

    ghost view = { λ a. agent_seen a.engine.parts a.mid_line a.standing };

    ghost invariant = { λ a. IsBound (M.rules a.engine.matcher) (M.elements a.engine.matcher) (M.failed a.engine.matcher) (M.knows a.engine.matcher) a.engine.parts a.standing };
}

impl<M: Outstanding + Drop> Agent<M> {
    /// The top state with its input and output links, and no rule (Soar manual, chapter 2, the top state), told at a watch
    /// level from 0 to 5.
    pub fn new(alloc: Global, matcher: M, watch: u8) -> Result<Agent<M>, NoMemory>
        requires works { M.failed matcher ≡ false }
        requires rules { M.rules matcher ≡ [] }
        requires elements { M.elements matcher ≡ [] }
        ensures stands { IfOk result (λ agent. Stands agent.parts (first_agent watch)) }
        ensures standing { IfOk result (λ agent. agent.standing ≡ Standing.Stands) }
        ensures mid_line { IfOk result (λ agent. agent.mid_line ≡ false) }
        ensures sound { IfOk result (λ agent. IsSoundAgent agent) }
    {
        let engine = Engine::new(alloc, matcher, watch)?;
        Ok(Agent {
            engine,
            mid_line: false,
            standing: Standing::Stands,
            alloc,
        })
    }
}

impl<M: Outstanding> Agent<M> {
    /// Lends the words, to which more may be added. An agent that is sound stays so if the words that were there are
    /// left in front, and each text stands once.
    pub fn table(&mut self) -> &mut SymTable
        ensures* writes_back { sem 𝓛 (Lends (agent.the_row M.row M.Outstanding.own M.Matcher) table.the_row self.entry result (with_table self.old)) }
        ensures value { result.now ≡ self.old.parts.table }
        ensures sound { (words : Texts) → Grown self.old.parts.table words → EachOnce words → IsSoundAgent self.old → IsSoundAgent (with_table self.old words) }
    {
        &mut self.engine.parts.table
    }

    /// The words.
    pub fn symbols(&self) -> &SymTable
        ensures { result.now ≡ self.now.parts.table }
    {
        &self.engine.parts.table
    }

    /// The last number of each letter.
    pub fn letters(&self) -> &Letters
        ensures { result.now ≡ self.now.parts.letters }
    {
        &self.engine.parts.letters
    }

    /// Working memory.
    pub fn memory(&self) -> &Memory
        ensures { result.now ≡ self.now.parts.memory }
    {
        &self.engine.parts.memory
    }

    /// Preference memory.
    pub fn prefs(&self) -> &Prefs
        ensures { result.now ≡ self.now.parts.prefs }
    {
        &self.engine.parts.prefs
    }

    /// The rules, in order of number.
    pub fn rules(&self) -> &Rules
        ensures { result.now ≡ self.now.parts.rules }
    {
        &self.engine.parts.rules
    }

    /// The explanation of the learned rule of a number. Any other rule has none.
    pub fn chain(&self, rule: u64) -> Option<&Chain>
        ensures { option_map chain_seen (option_copied result) ≡ chain_of_rule (map learned_rule_seen self.now.parts.chains) rule }
    {
        chain_of_rule(self.engine.parts.chains.as_slice(), rule)
    }

    /// The goals, from the top.
    pub fn goals(&self) -> &List<Goal>
        ensures { result.now ≡ self.now.parts.goals }
    {
        self.engine.parts.goals.list()
    }

    /// Whether a triple is an input.
    pub fn is_input(&self, triple: Triple) -> bool
        ensures { result ≡ has_triple_among self.now.parts.inputs triple }
    {
        self.engine.parts.inputs.has(triple)
    }

    /// How it is set.
    pub fn settings(&self) -> Settings
        ensures { result ≡ self.now.parts.settings }
    {
        self.engine.parts.settings
    }

    /// How much was done since the start or the last start anew, and how much there is now.
    pub fn counts(&self) -> Counts
        ensures { result ≡ counts_in self.now.parts }
    {
        counts_in(&self.engine.parts)
    }

    /// Whether it is halted.
    pub fn halted(&self) -> bool
        ensures { result ≡ self.now.parts.halted }
    {
        self.engine.parts.halted
    }

    /// Whether it stands for a state.
    pub fn standing(&self) -> Standing
        ensures { result ≡ self.now.standing }
    {
        self.standing
    }

    /// Whether what was written ends in the middle of a line.
    pub fn mid_line(&self) -> bool
        ensures { result ≡ self.now.mid_line }
    {
        self.mid_line
    }

    /// Sets whether what was written ends in the middle of a line, once a session has written lines of its own.
    pub fn set_mid_line(&mut self, on: bool)
        ensures { self.new ≡ record self.old { mid_line = on } }
    {
        self.mid_line = on;
    }
}
