// What waits for an agent.
ghost use Rattle.std.specs.Prelude.{◌≡◌, OnOk};
ghost use Rattle.defs_soar.specs.Agents.{Agent as AgentOf};
ghost use Rattle.cycle_parts.specs.Bonds.{Bond};
ghost use Rattle.cycle_parts.specs.Calls.{IsTripleGiven, queue_step, random_step};
ghost use Rattle.decision_parts.specs.Stepping.{QuietStep};
ghost use Rattle.decision_parts.specs.Lawful.{IsOfLawful};
ghost use Rattle.decision_parts.specs.Seen.{IsSound};
ghost use Rattle.decision_parts.specs.Stands.{Stands};

use crate::engine::Engine;
use decision_parts::Stop;
use input_queue::Queued;
use outstanding::Outstanding;
use soar_sym::Triple;

impl<M: Outstanding> Engine<M> {
    /// Queues a change of the inputs for the next input phase.
    pub fn queue(&mut self, adds: bool, triple: Triple) -> Result<(), Stop>
        requires sound { IsSound self.old.parts }
        requires lawful { IsOfLawful self.old.parts }
        requires bond { Bond (M.rules self.old.matcher) (M.elements self.old.matcher) (M.failed self.old.matcher) (M.knows self.old.matcher) self.old.parts }
        requires given { IsTripleGiven self.old.parts triple }
        ensures step { (s : AgentOf) → Stands self.old.parts s → QuietStep (queue_step adds triple s) self.new.parts result }
        ensures settings { self.new.parts.settings ≡ self.old.parts.settings }
        ensures sound { OnOk result (IsSound self.new.parts) }
        ensures lawful { OnOk result (IsOfLawful self.new.parts) }
        ensures bond { OnOk result (Bond (M.rules self.new.matcher) (M.elements self.new.matcher) (M.failed self.new.matcher) (M.knows self.new.matcher) self.new.parts) }
    {
        self.parts.queue.push(Queued { adds, triple })?;
        Ok(())
    }

    /// Puts random words behind those that wait for draws.
    pub fn random(&mut self, words: &[u64]) -> Result<(), Stop>
        requires sound { IsSound self.old.parts }
        requires lawful { IsOfLawful self.old.parts }
        requires bond { Bond (M.rules self.old.matcher) (M.elements self.old.matcher) (M.failed self.old.matcher) (M.knows self.old.matcher) self.old.parts }
        ensures step { (s : AgentOf) → Stands self.old.parts s → QuietStep (random_step words.now s) self.new.parts result }
        ensures settings { self.new.parts.settings ≡ self.old.parts.settings }
        ensures sound { OnOk result (IsSound self.new.parts) }
        ensures lawful { OnOk result (IsOfLawful self.new.parts) }
        ensures bond { OnOk result (Bond (M.rules self.new.matcher) (M.elements self.new.matcher) (M.failed self.new.matcher) (M.knows self.new.matcher) self.new.parts) }
    {
        self.parts.random.extend_from_slice(words)?;
        Ok(())
    }
}
