ghost use Rattle.std.specs.Prelude.{◌≡◌, false, [], map, IfOk, OnOk};
ghost use Rattle.defs_match.specs.Conflict.{conflict};
ghost use Rattle.defs_soar.specs.Start.{first_agent};
ghost use Rattle.defs_match.specs.Rules.{rule_seen};
ghost use Rattle.cycle_parts.specs.Bonds.{Bond};
ghost use Rattle.match_changes.specs.Told.{of_rule};
ghost use Rattle.decision_parts.specs.Lawful.{IsOfLawful};
ghost use Rattle.decision_parts.specs.Seen.{IsSound};
ghost use Rattle.decision_parts.specs.Stands.{Stands};

use crate::taking::take_first;
use decision_parts::Parts;
use defs_match::{Instance, Matcher};
use outstanding::Outstanding;
use soar_sym::{List, NoMemory};
use std::alloc::Global;

/// The parts of an agent, and the matcher that holds its rules and working memory.
#[derive(Drop)]
pub struct Engine<M: Matcher> {
    pub parts: Parts,
    pub matcher: M,
}

impl<M: Outstanding + Drop> Engine<M> {
    /// The top state with its input and output links, and no rule, told at a watch level.
    pub fn new(alloc: Global, mut matcher: M, watch: u8) -> Result<Engine<M>, NoMemory>
        requires works { M.failed matcher ≡ false }
        requires rules { M.rules matcher ≡ [] }
        requires elements { M.elements matcher ≡ [] }
        ensures stands { IfOk result (λ engine. Stands engine.parts (first_agent watch)) }
        ensures sound { IfOk result (λ engine. IsSound engine.parts) }
        ensures lawful { IfOk result (λ engine. IsOfLawful engine.parts) }
        ensures bond { IfOk result (λ engine. Bond (M.rules engine.matcher) (M.elements engine.matcher) (M.failed engine.matcher) (M.knows engine.matcher) engine.parts) }
    {
        matcher.begin();
        take_first(&mut matcher)?;
        match Parts::new(alloc, watch) {
            Ok(parts) => Ok(Engine { parts, matcher }),
            Err(fault) => Err(fault),
        }
    }
}

impl<M: Outstanding> Engine<M> {
    /// The conflict set.
    pub fn conflict(&mut self, alloc: Global) -> Result<List<Instance>, NoMemory>
        requires bond { Bond (M.rules self.old.matcher) (M.elements self.old.matcher) (M.failed self.old.matcher) (M.knows self.old.matcher) self.old.parts }
        ensures conflict { IfOk result (λ instances. instances ≡ conflict (map rule_seen self.old.parts.rules) self.old.parts.memory.elements) }
        ensures parts { self.new.parts ≡ self.old.parts }
        ensures settings { self.new.parts.settings ≡ self.old.parts.settings }
        ensures bond { OnOk result (Bond (M.rules self.new.matcher) (M.elements self.new.matcher) (M.failed self.new.matcher) (M.knows self.new.matcher) self.new.parts) }
    {
        self.matcher.instances(alloc)
    }

    /// The instances of the rule of a number.
    pub fn instances_of(&mut self, alloc: Global, number: u64) -> Result<List<Instance>, NoMemory>
        requires bond { Bond (M.rules self.old.matcher) (M.elements self.old.matcher) (M.failed self.old.matcher) (M.knows self.old.matcher) self.old.parts }
        ensures found { IfOk result (λ found. found ≡ of_rule number (conflict (map rule_seen self.old.parts.rules) self.old.parts.memory.elements)) }
        ensures parts { self.new.parts ≡ self.old.parts }
        ensures settings { self.new.parts.settings ≡ self.old.parts.settings }
        ensures bond { OnOk result (Bond (M.rules self.new.matcher) (M.elements self.new.matcher) (M.failed self.new.matcher) (M.knows self.new.matcher) self.new.parts) }
    {
        self.matcher.instances_of(alloc, number)
    }
}
