// Removing an element by its tag.
ghost use Rattle.std.specs.Prelude.{IfOk};
ghost use Rattle.soar_wm.specs.WorkingMemory.{triple_of};
ghost use Rattle.defs_run.specs.Carrying.{carried_out};
ghost use Rattle.defs_run.specs.Inputs.{removed};
ghost use Rattle.defs_run.specs.Orders.{remove_wme};
ghost use Rattle.soar_agent.specs.Running.{run_learning};
ghost use Rattle.soar_cycle.specs.Calls.{IsTripleKnown};
ghost use Rattle.soar_agent.specs.Carries.{Carries};
ghost use Rattle.soar_agent.specs.Numbered.{IsTripleNumbered};
ghost use Rattle.soar_agent.specs.States.{IsReady};

use crate::outcome::Outcome;
use crate::state::Session;
use outstanding::Outstanding;
use session_parts::{Origin, Reason, element_of, triple_of};
use soar_cycle::Stop;
use soar_sym::Text;
use soar_wm::Element;

impl<M: Outstanding> Session<M> {
    /// Takes the element of a tag from the inputs.
    pub fn remove(&mut self, origin: &Origin<'_>, tag: u64, out: &mut Text) -> Result<Outcome, Stop>
        requires { IsReady self.old }
        ensures reply { Carries self.old self.new origin.now.source.now origin.now.line (carried_out run_learning (remove_wme tag)) out.old out.new result }
        ensures ready { IfOk result (λ _. IsReady self.new) }
    {
        match element_of(self.agent.memory(), tag) {
            Some(element) => self.remove_element(origin, element, out),
            None => self.refuse_with(origin, &Reason::NoElement(tag), out),
        }
    }

    fn remove_element(
        &mut self,
        origin: &Origin<'_>,
        element: Element,
        out: &mut Text,
    ) -> Result<Outcome, Stop>
        requires ready { IsReady self.old }
        requires known { IsTripleKnown self.old.agent.parts.table (triple_of element) }
        requires numbered { IsTripleNumbered self.old.agent.parts.letters (triple_of element) }
        ensures reply { Carries self.old self.new origin.now.source.now origin.now.line (λ s. removed s element) out.old out.new result }
        ensures ready { IfOk result (λ _. IsReady self.new) }
    {
        let triple = triple_of(element);
        if self.agent.is_input(triple) {
            self.change_inputs(false, triple, out)
        } else {
            self.refuse_with(origin, &Reason::NotAnInput(element.tag), out)
        }
    }
}
