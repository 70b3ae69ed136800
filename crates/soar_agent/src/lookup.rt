// What the operands of a command are looked up in.
ghost use Rattle.std.specs.Prelude.{◌≡◌, List as ListOf};
ghost use Rattle.defs_soar.specs.History.{RecordedFiring};
ghost use Rattle.session_parts.specs.Lookups.{session_with};
ghost use Rattle.session_parts.specs.Told.{AreLevelsTold};
ghost use Rattle.soar_agent.specs.States.{IsReady, session_of};

use crate::state::Session;
use outstanding::Outstanding;
use session_parts::Lookup;
use std::alloc::Global;

impl<M: Outstanding> Session<M> {
    pub fn lookup(&self, alloc: Global) -> Lookup<'_>
        ensures table { result.table.now ≡ self.now.agent.parts.table }
        ensures letters { result.letters.now ≡ self.now.agent.parts.letters }
        ensures elements { result.memory.now.elements ≡ self.now.agent.parts.memory.elements }
        ensures told { IsReady self.now → AreLevelsTold result }
        ensures session { (history : ListOf RecordedFiring) → session_with result (session_of self.now history) ≡ session_of self.now history }
    {
        Lookup {
            alloc,
            table: self.agent.symbols(),
            letters: self.agent.letters(),
            labels: &self.labels,
            goals: self.agent.goals(),
            memory: self.agent.memory(),
            levels: self.agent.levels(),
        }
    }
}
