// Loading productions.
ghost use Rattle.std.specs.Prelude.{◌≡◌, false, true, OnOk};
ghost use Rattle.defs_soar.specs.Agents.{Agent as AgentOf};
ghost use Rattle.soar_rule.specs.AsItStands.{can_be_matched};
ghost use Rattle.soar_rule.specs.Productions.{production_seen};
ghost use Rattle.soar_rule.specs.Symbols.{AreKnown, symbols_of};
ghost use Rattle.defs_soar.specs.Pending.{is_justification};
ghost use Rattle.cycle_parts.specs.Bonds.{Bond};
ghost use Rattle.cycle_parts.specs.Calls.{MayBeLoaded, load_step};
ghost use Rattle.decision_parts.specs.Stepping.{QuietStep};
ghost use Rattle.decision_parts.specs.Lawful.{IsOfLawful};
ghost use Rattle.decision_parts.specs.Seen.{IsSound};
ghost use Rattle.decision_parts.specs.Stands.{Stands};

use crate::dropping::drop_named;
use crate::engine::Engine;
use decision_parts::{Stop, count_more};
use defs_match::Rule;
use outstanding::Outstanding;
use soar_rule::Production;
use std::alloc::Global;

impl<M: Outstanding> Engine<M> {
    /// Loads a production under the next rule number, in the place of that of its name, whose explanation goes too.
    pub fn load(&mut self, alloc: Global, production: Production) -> Result<(), Stop>
        requires sound { IsSound self.old.parts }
        requires lawful { IsOfLawful self.old.parts }
        requires bond { Bond (M.rules self.old.matcher) (M.elements self.old.matcher) (M.failed self.old.matcher) (M.knows self.old.matcher) self.old.parts }
        requires known { AreKnown self.old.parts.table (symbols_of (production_seen production)) }
        requires unlearned { is_justification production.kind ≡ false }
        requires matchable { can_be_matched (production_seen production) ≡ true }
        requires may_be_loaded { MayBeLoaded self.old.parts.table (production_seen production) }
        ensures step { (s : AgentOf) → Stands self.old.parts s → QuietStep (load_step (production_seen production) s) self.new.parts result }
        ensures settings { self.new.parts.settings ≡ self.old.parts.settings }
        ensures sound { OnOk result (IsSound self.new.parts) }
        ensures lawful { OnOk result (IsOfLawful self.new.parts) }
        ensures bond { OnOk result (Bond (M.rules self.new.matcher) (M.elements self.new.matcher) (M.failed self.new.matcher) (M.knows self.new.matcher) self.new.parts) }
    {
        let number = count_more(self.parts.last_rule, 1)?;
        let name = production.name;
        let rule = Rule::new(alloc, number, production)?;
        drop_named(&mut self.parts, &mut self.matcher, name);
        self.matcher.rule_comes(&rule)?;
        self.parts.rules.push(rule)?;
        self.parts.last_rule = number;
        Ok(())
    }
}
