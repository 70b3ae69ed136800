// The preferences for an attribute of an identifier.
ghost use Rattle.std.specs.Prelude.{IfOk};
ghost use Rattle.defs_run.specs.Carrying.{carried_out, lists_slot};
ghost use Rattle.defs_run.specs.Listing.{preference_lines};
ghost use Rattle.defs_run.specs.Orders.{preferences};
ghost use Rattle.soar_agent.specs.Running.{run_learning};
ghost use Rattle.defs_run.specs.Sessions.{says};
ghost use Rattle.command_orders.specs.Asked.{operand_seen};
ghost use Rattle.command_orders.specs.Known.{IsAttributeKnown, IsOperandKnown};
ghost use Rattle.soar_agent.specs.Carries.{Carries, Replies};
ghost use Rattle.soar_agent.specs.States.{IsReady};

use crate::outcome::Outcome;
use crate::state::Session;
use defs_run::Operand;
use list_parts::list_preferences;
use outstanding::Outstanding;
use session_parts::{Origin, Reason, Slot};
use soar_cycle::Stop;
use soar_sym::Text;

impl<M: Outstanding> Session<M> {
    /// Says the preferences of a slot. A label that is used for the first time becomes a new identifier.
    pub fn list_slot(
        &mut self,
        origin: &Origin<'_>,
        id: Operand,
        attr: Operand,
        out: &mut Text,
    ) -> Result<Outcome, Stop>
        requires ready { IsReady self.old }
        requires id { IsOperandKnown self.old.agent.parts.table id }
        requires attr { IsAttributeKnown self.old.agent.parts.table attr }
        ensures reply { Carries self.old self.new origin.now.source.now origin.now.line (carried_out run_learning (preferences (operand_seen id) (operand_seen attr))) out.old out.new result }
        ensures ready { IfOk result (λ _. IsReady self.new) }
    {
        match self.lookup(out.allocator()).unknown_in_slot(&id, &attr)? {
            Some(text) => self.refuse_with(origin, &Reason::UnknownIdentifier(text.as_str()), out),
            None => self.list_slot_given(id, attr, out),
        }
    }

    /// Says the preferences of a slot whose identifiers there are.
    fn list_slot_given(
        &mut self,
        id: Operand,
        attr: Operand,
        out: &mut Text,
    ) -> Result<Outcome, Stop>
        requires ready { IsReady self.old }
        requires id { IsOperandKnown self.old.agent.parts.table id }
        requires attr { IsAttributeKnown self.old.agent.parts.table attr }
        ensures reply { Replies self.old self.new (λ s. lists_slot s (operand_seen id) (operand_seen attr)) out.old out.new result }
        ensures ready { IfOk result (λ _. IsReady self.new) }
    {
        let id = self.resolve(id)?;
        let attr = self.resolve(attr)?;
        self.list_slot_of(Slot { id, attr }, out)
    }

    fn list_slot_of(&mut self, slot: Slot, out: &mut Text) -> Result<Outcome, Stop>
        requires { IsReady self.old }
        ensures reply { Replies self.old self.new (λ s. says s (preference_lines s.agent slot.id slot.attr)) out.old out.new result }
        ensures ready { IfOk result (λ _. IsReady self.new) }
    {
        let agent = &self.agent;
        let mut mid_line = agent.mid_line();
        list_preferences(
            agent.symbols(),
            agent.prefs(),
            slot.id,
            slot.attr,
            out,
            &mut mid_line,
        )?;
        self.agent.set_mid_line(mid_line);
        Ok(Outcome::Done)
    }
}
