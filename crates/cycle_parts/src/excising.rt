// Taking productions away.
ghost use Rattle.std.specs.Prelude.{◌≡◌};
ghost use Rattle.defs_soar.specs.Agents.{Agent as AgentOf};
ghost use Rattle.cycle_parts.specs.Bonds.{Bond};
ghost use Rattle.cycle_parts.specs.Calls.{excised_agent};
ghost use Rattle.decision_parts.specs.Lawful.{IsOfLawful};
ghost use Rattle.decision_parts.specs.Seen.{IsSound};
ghost use Rattle.decision_parts.specs.Stands.{Stands};

use crate::dropping::drop_named;
use crate::engine::Engine;
use outstanding::Outstanding;
use soar_sym::Sym;

impl<M: Outstanding> Engine<M> {
    /// Takes the productions of a name away, with their explanations. Their firings are retracted in the next wave. It
    /// takes no memory.
    pub fn excise(&mut self, name: Sym)
        requires sound { IsSound self.old.parts }
        requires lawful { IsOfLawful self.old.parts }
        requires bond { Bond (M.rules self.old.matcher) (M.elements self.old.matcher) (M.failed self.old.matcher) (M.knows self.old.matcher) self.old.parts }
        ensures step { (s : AgentOf) → Stands self.old.parts s → Stands self.new.parts (excised_agent name s) }
        ensures table { self.new.parts.table ≡ self.old.parts.table }
        ensures settings { self.new.parts.settings ≡ self.old.parts.settings }
        ensures sound { IsSound self.new.parts }
        ensures lawful { IsOfLawful self.new.parts }
        ensures bond { Bond (M.rules self.new.matcher) (M.elements self.new.matcher) (M.failed self.new.matcher) (M.knows self.new.matcher) self.new.parts }
    {
        drop_named(&mut self.parts, &mut self.matcher, name);
    }
}
