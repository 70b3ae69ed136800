// The inputs of the agent.
ghost use Rattle.std.specs.Prelude.{IfOk};
ghost use Rattle.defs_run.specs.Inputs.{with_inputs};
ghost use Rattle.soar_cycle.specs.Calls.{IsTripleKnown, with_input};
ghost use Rattle.soar_agent.specs.Carries.{Replies};
ghost use Rattle.soar_agent.specs.Numbered.{IsTripleNumbered};
ghost use Rattle.soar_agent.specs.States.{IsReady};

use crate::outcome::Outcome;
use crate::state::Session;
use outstanding::Outstanding;
use soar_cycle::Stop;
use soar_sym::{Text, Triple};

impl<M: Outstanding> Session<M> {
    /// Puts a triple behind the inputs, or takes it out, and says what settling does then.
    pub fn change_inputs(
        &mut self,
        adds: bool,
        triple: Triple,
        out: &mut Text,
    ) -> Result<Outcome, Stop>
        requires ready { IsReady self.old }
        requires known { IsTripleKnown self.old.agent.parts.table triple }
        requires numbered { IsTripleNumbered self.old.agent.parts.letters triple }
        ensures reply { Replies self.old self.new (with_inputs (with_input adds triple self.old.agent.parts.inputs)) out.old out.new result }
        ensures ready { IfOk result (λ _. IsReady self.new) }
    {
        match self.agent.input_now(adds, triple, out) {
            Ok(()) => Ok(Outcome::Done),
            Err(stop) => Err(stop),
        }
    }
}
