// The rules of an agent.
ghost use Rattle.std.specs.Prelude.{◌≡◌, false, map, true, Ok, Err, IfErr, IfOk, MatchResult};
ghost use Rattle.defs_soar.specs.Agents.{Agent as AgentOf};
ghost use Rattle.soar_cycle.specs.Agents.{IsSoundAgent, IsStopped, StaysAsItIs, standing_after};
ghost use Rattle.cycle_phases.specs.Stands.{Stands};
ghost use Rattle.soar_rule.specs.AsItStands.{can_be_matched};
ghost use Rattle.soar_rule.specs.Productions.{production_seen};
ghost use Rattle.soar_rule.specs.Symbols.{AreKnown, symbols_of};
ghost use Rattle.defs_match.specs.Conflict.{conflict};
ghost use Rattle.defs_match.specs.Rules.{rule_seen};
ghost use Rattle.defs_soar.specs.Pending.{is_justification};
ghost use Rattle.cycle_phases.specs.Calls.{MayBeLoaded, excised_agent, load_step};
ghost use Rattle.cycle_phases.specs.Stepping.{QuietStep};
ghost use Rattle.match_changes.specs.Told.{of_rule};

use crate::agent::Agent;
use crate::standing::{Standing, standing_after};
use cycle_phases::Stop;
use defs_match::Instance;
use outstanding::Outstanding;
use soar_rule::Production;
use soar_sym::{List, NoMemory, Sym};

impl<M: Outstanding> Agent<M> {
    /// Loads a production under the next rule number, in the place of that of its name, whose explanation goes too.
    pub fn load(&mut self, production: Production) -> Result<(), Stop>
        requires sound { IsSoundAgent self.old }
        requires known { self.old.standing ≡ Standing.Stands → AreKnown self.old.parts.table (symbols_of (production_seen production)) }
        requires unlearned { is_justification production.kind ≡ false }
        requires matchable { can_be_matched (production_seen production) ≡ true }
        requires may_be_loaded { self.old.standing ≡ Standing.Stands → MayBeLoaded self.old.parts.table (production_seen production) }
        ensures step { self.old.standing ≡ Standing.Stands → (s : AgentOf) → Stands self.old.parts s → QuietStep (load_step (production_seen production) s) self.new.parts result }
        ensures settings { self.new.parts.settings ≡ self.old.parts.settings }
        ensures standing { self.new.standing ≡ standing_after self.old.standing result }
        ensures stopped { IsStopped self.old.standing result }
        ensures still { StaysAsItIs self.old.standing self.old self.new }
        ensures sound { IsSoundAgent self.new }
        ensures mid_line { self.new.mid_line ≡ self.old.mid_line }
    {
        if let Some(stop) = self.standing.stop() {
            return Err(stop);
        }
        let answer = self.engine.load(self.alloc, production);
        self.standing = standing_after(self.standing, &answer);
        answer
    }

    /// Takes the productions of a name away, with their explanations. Their firings are retracted in the next wave. Where
    /// it stands for no state it does nothing.
    pub fn excise(&mut self, name: Sym)
        requires sound { IsSoundAgent self.old }
        ensures step { self.old.standing ≡ Standing.Stands → (s : AgentOf) → Stands self.old.parts s → Stands self.new.parts (excised_agent name s) }
        ensures table { self.new.parts.table ≡ self.old.parts.table }
        ensures settings { self.new.parts.settings ≡ self.old.parts.settings }
        ensures standing { self.new.standing ≡ self.old.standing }
        ensures sound { IsSoundAgent self.new }
        ensures mid_line { self.new.mid_line ≡ self.old.mid_line }
    {
        if self.standing.stop().is_some() {
            return;
        }
        self.engine.excise(name);
    }

    /// The conflict set, in order of rule number and then of tags.
    pub fn conflict(&mut self) -> Result<List<Instance>, Stop>
        requires sound { IsSoundAgent self.old }
        ensures conflict { self.old.standing ≡ Standing.Stands → IfOk result (λ instances. instances ≡ conflict (map rule_seen self.old.parts.rules) self.old.parts.memory.elements) }
        ensures limit { self.old.standing ≡ Standing.Stands → IfErr result (λ why. why ≡ Stop.NoMemory) }
        ensures parts { self.new.parts ≡ self.old.parts }
        ensures settings { self.new.parts.settings ≡ self.old.parts.settings }
        ensures standing { self.new.standing ≡ standing_after self.old.standing result }
        ensures stopped { IsStopped self.old.standing result }
        ensures still { StaysAsItIs self.old.standing self.old self.new }
        ensures sound { IsSoundAgent self.new }
        ensures mid_line { self.new.mid_line ≡ self.old.mid_line }
    {
        if let Some(stop) = self.standing.stop() {
            return Err(stop);
        }
        let answer = as_stop(self.engine.conflict(self.alloc));
        self.standing = standing_after(self.standing, &answer);
        answer
    }

    /// The instances of the rule of a number, in order of tags. Other rules are not looked at.
    pub fn instances_of(&mut self, number: u64) -> Result<List<Instance>, Stop>
        requires sound { IsSoundAgent self.old }
        ensures found { self.old.standing ≡ Standing.Stands → IfOk result (λ found. found ≡ of_rule number (conflict (map rule_seen self.old.parts.rules) self.old.parts.memory.elements)) }
        ensures limit { self.old.standing ≡ Standing.Stands → IfErr result (λ why. why ≡ Stop.NoMemory) }
        ensures parts { self.new.parts ≡ self.old.parts }
        ensures settings { self.new.parts.settings ≡ self.old.parts.settings }
        ensures standing { self.new.standing ≡ standing_after self.old.standing result }
        ensures stopped { IsStopped self.old.standing result }
        ensures still { StaysAsItIs self.old.standing self.old self.new }
        ensures sound { IsSoundAgent self.new }
        ensures mid_line { self.new.mid_line ≡ self.old.mid_line }
    {
        if let Some(stop) = self.standing.stop() {
            return Err(stop);
        }
        let answer = as_stop(self.engine.instances_of(self.alloc, number));
        self.standing = standing_after(self.standing, &answer);
        answer
    }
}

/// Want of memory is all that a matcher may answer.
fn as_stop(answer: Result<List<Instance>, NoMemory>) -> Result<List<Instance>, Stop>
    ensures { MatchResult answer (λ instances. result ≡ Ok instances) (λ _. result ≡ Err Stop.NoMemory) }
{
    match answer {
        Ok(instances) => Ok(instances),
        Err(NoMemory) => Err(Stop::NoMemory),
    }
}
