// What waits for the agent: changes of the inputs, and random words.
ghost use Rattle.std.specs.Prelude.{◌≡◌, List as ListOf, IfOk};
ghost use Rattle.defs_run.specs.Carrying.{carried_out};
ghost use Rattle.defs_run.specs.Inputs.{queued, spelled, with_queued, with_random};
ghost use Rattle.defs_run.specs.Orders.{queue};
ghost use Rattle.soar_agent.specs.Running.{run_learning};
ghost use Rattle.defs_soar.specs.History.{RecordedFiring};
ghost use Rattle.soar_cycle.specs.Remembers.{Remembers};
ghost use Rattle.command_orders.specs.Asked.{operand_seen};
ghost use Rattle.command_orders.specs.Known.{IsAdditionKnown};
ghost use Rattle.soar_cycle.specs.Calls.{IsTripleKnown};
ghost use Rattle.soar_agent.specs.Carries.{Carries, RepliesNothing};
ghost use Rattle.soar_agent.specs.Labels.{Spells};
ghost use Rattle.soar_agent.specs.Numbered.{IsAdditionNumbered, IsTripleNumbered};
ghost use Rattle.soar_agent.specs.Queueing.{queues_triple};
ghost use Rattle.soar_agent.specs.States.{IsReady, session_of};

use crate::outcome::Outcome;
use crate::state::Session;
use defs_run::Addition;
use outstanding::Outstanding;
use session_parts::{Origin, Reason, Slot};
use soar_cycle::Stop;
use soar_sym::{List, Text, Triple};

impl<M: Outstanding> Session<M> {
    /// Queues a change of the inputs for the next input phase.
    pub fn queue(
        &mut self,
        origin: &Origin<'_>,
        adds: bool,
        addition: Addition,
        out: &mut Text,
    ) -> Result<Outcome, Stop>
        requires ready { IsReady self.old }
        requires known { IsAdditionKnown self.old.agent.parts.table addition }
        ensures reply { Carries self.old self.new origin.now.source.now origin.now.line
            (carried_out run_learning (queue adds (operand_seen addition.id) (operand_seen addition.attr) (operand_seen addition.value))) out.old out.new result }
        ensures ready { IfOk result (λ _. IsReady self.new) }
    {
        match self
            .lookup(out.allocator())
            .first_unknown(false, &addition)?
        {
            Some(text) => self.refuse_with(origin, &Reason::UnknownIdentifier(text.as_str()), out),
            None => self.queue_given(origin, adds, addition, out),
        }
    }

    /// Queues a change whose identifiers there are, unless its attribute is reserved.
    fn queue_given(
        &mut self,
        origin: &Origin<'_>,
        adds: bool,
        addition: Addition,
        out: &mut Text,
    ) -> Result<Outcome, Stop>
        requires ready { IsReady self.old }
        requires known { IsAdditionKnown self.old.agent.parts.table addition }
        requires numbered { IsAdditionNumbered self.old.agent.parts.letters addition }
        ensures reply { Carries self.old self.new origin.now.source.now origin.now.line
            (λ s. queued adds (spelled s (operand_seen addition.id) (operand_seen addition.attr) (operand_seen addition.value))) out.old out.new result }
        ensures ready { IfOk result (λ _. IsReady self.new) }
    {
        if self.lookup(out.allocator()).is_reserved(&addition) {
            self.refuse_with(origin, &Reason::ReservedAttribute, out)
        } else {
            self.queue_spelled(adds, addition)
        }
    }

    /// Queues a change, and makes its labels.
    fn queue_spelled(&mut self, adds: bool, addition: Addition) -> Result<Outcome, Stop>
        requires ready { IsReady self.old }
        requires known { IsAdditionKnown self.old.agent.parts.table addition }
        requires numbered { IsAdditionNumbered self.old.agent.parts.letters addition }
        ensures reply { RepliesNothing self.old self.new
            (λ s. with_queued adds (spelled s (operand_seen addition.id) (operand_seen addition.attr) (operand_seen addition.value))) result }
        ensures ready { IfOk result (λ _. IsReady self.new) }
    {
        match self.spell(addition) {
            Ok(triple) => self.put_queued(adds, triple),
            Err(stop) => Err(stop),
        }
    }

    /// The triple of three operands.
    fn spell(&mut self, addition: Addition) -> Result<Triple, Stop>
        requires ready { IsReady self.old }
        requires known { IsAdditionKnown self.old.agent.parts.table addition }
        requires numbered { IsAdditionNumbered self.old.agent.parts.letters addition }
        ensures triple { (history : ListOf RecordedFiring) → Remembers self.old.agent.parts history →
            Spells self.new (spelled (session_of self.old history) (operand_seen addition.id) (operand_seen addition.attr) (operand_seen addition.value)) history result }
        ensures known { IfOk result (λ triple. IsTripleKnown self.new.agent.parts.table triple) }
        ensures numbered { IfOk result (λ triple. IsTripleNumbered self.new.agent.parts.letters triple) }
        ensures ready { IfOk result (λ _. IsReady self.new) }
        ensures mid_line { self.new.agent.mid_line ≡ self.old.agent.mid_line }
    {
        let id = self.resolve(addition.id)?;
        let attr = self.resolve(addition.attr)?;
        let value = self.resolve(addition.value)?;
        Ok(Slot { id, attr }.with(value))
    }

    /// Queues a change of symbols that there are.
    fn put_queued(&mut self, adds: bool, triple: Triple) -> Result<Outcome, Stop>
        requires ready { IsReady self.old }
        requires known { IsTripleKnown self.old.agent.parts.table triple }
        requires numbered { IsTripleNumbered self.old.agent.parts.letters triple }
        ensures reply { RepliesNothing self.old self.new (queues_triple adds triple) result }
        ensures ready { IfOk result (λ _. IsReady self.new) }
    {
        match self.agent.queue(adds, triple) {
            Ok(()) => Ok(Outcome::Done),
            Err(stop) => Err(stop),
        }
    }

    /// Puts random words behind those that wait for draws.
    pub fn put_random(&mut self, words: &List<u64>) -> Result<Outcome, Stop>
        requires { IsReady self.old }
        ensures reply { RepliesNothing self.old self.new (with_random words.now) result }
        ensures ready { IfOk result (λ _. IsReady self.new) }
    {
        match self.agent.random(words) {
            Ok(()) => Ok(Outcome::Done),
            Err(stop) => Err(stop),
        }
    }
}
