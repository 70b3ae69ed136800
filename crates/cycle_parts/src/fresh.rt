// New identifiers.
ghost use Rattle.std.specs.Prelude.{◌≡◌, ◌+◌, ◌≤◌, IfOk, OnOk};
ghost use Rattle.soar_sym.specs.Letters.{last_of};
ghost use Rattle.soar_sym.specs.Words.{IsKnown};
ghost use Rattle.defs_soar.specs.Agents.{Agent as AgentOf};
ghost use Rattle.cycle_parts.specs.Bonds.{Bond};
ghost use Rattle.cycle_parts.specs.Calls.{GivesFresh};
ghost use Rattle.decision_parts.specs.Lawful.{IsOfLawful};
ghost use Rattle.decision_parts.specs.Seen.{IsSound};
ghost use Rattle.decision_parts.specs.Stands.{Stands};

use crate::engine::Engine;
use decision_parts::Stop;
use defs_soar::Which;
use outstanding::Outstanding;
use soar_sym::Sym;

impl<M: Outstanding> Engine<M> {
    /// Gives a new identifier of a letter, `A` to `Z`.
    pub fn fresh(&mut self, letter: u8) -> Result<Sym, Stop>
        requires low { 65 ≤ letter }
        requires high { letter ≤ 90 }
        requires sound { IsSound self.old.parts }
        requires lawful { IsOfLawful self.old.parts }
        requires bond { Bond (M.rules self.old.matcher) (M.elements self.old.matcher) (M.failed self.old.matcher) (M.knows self.old.matcher) self.old.parts }
        ensures step { (s : AgentOf) → Stands self.old.parts s → GivesFresh letter s self.new.parts result }
        ensures symbol { IfOk result (λ symbol. symbol ≡ Sym.Ident letter (last_of self.old.parts.letters letter + 1)) }
        ensures known { IfOk result (λ symbol. IsKnown self.new.parts.table symbol) }
        ensures table { self.new.parts.table ≡ self.old.parts.table }
        ensures settings { self.new.parts.settings ≡ self.old.parts.settings }
        ensures sound { OnOk result (IsSound self.new.parts) }
        ensures lawful { OnOk result (IsOfLawful self.new.parts) }
        ensures bond { OnOk result (Bond (M.rules self.new.matcher) (M.elements self.new.matcher) (M.failed self.new.matcher) (M.knows self.new.matcher) self.new.parts) }
    {
        match self.parts.letters.next(letter) {
            Ok(symbol) => Ok(symbol),
            Err(_) => Err(Stop::Limit(Which::Identifiers)),
        }
    }
}
