// The levels that are kept.
ghost use Rattle.std.specs.Prelude.{◌≡◌, map};
ghost use Rattle.soar_wm.specs.WorkingMemory.{triple_of};
ghost use Rattle.cycle_phases.specs.Levels.{TellsLevels};
ghost use Rattle.cycle_phases.specs.Seen.{IsSound};

use crate::agent::Agent;
use cycle_phases::Kept;
use outstanding::Outstanding;

impl<M: Outstanding> Agent<M> {
    /// The levels of what the goals reach over working memory, as they are kept from step to step (Soar manual, chapter 2,
    /// substates and levels).
    pub fn levels(&self) -> &Kept
        ensures kept { result.now ≡ self.now.parts.kept }
        ensures told { IsSound self.now.parts → TellsLevels result.now self.now.parts.goals (map triple_of self.now.parts.memory.elements) }
    {
        &self.engine.parts.kept
    }
}
