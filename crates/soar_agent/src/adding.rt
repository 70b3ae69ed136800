// Adding an element to the inputs.
ghost use Rattle.std.specs.Prelude.{◌≡◌, true, None, List as ListOf, IfOk};
ghost use Rattle.soar_sym.specs.Words.{IsKnown};
ghost use Rattle.defs_soar.specs.History.{RecordedFiring};
ghost use Rattle.defs_run.specs.Carrying.{carried_out};
ghost use Rattle.defs_run.specs.Inputs.{added, first_unknown, spelled};
ghost use Rattle.defs_run.specs.Orders.{add_wme};
ghost use Rattle.soar_agent.specs.Running.{run_learning};
ghost use Rattle.command_orders.specs.Asked.{operand_seen};
ghost use Rattle.command_orders.specs.Known.{IsAdditionKnown, IsOperandKnown};
ghost use Rattle.soar_cycle.specs.Calls.{IsTripleKnown};
ghost use Rattle.soar_agent.specs.Adding.{adds_at_top, adds_by, adds_to, adds_triple, makes_labelled};
ghost use Rattle.soar_agent.specs.Carries.{Carries, Replies};
ghost use Rattle.soar_agent.specs.Numbered.{IsOperandNumbered, IsSlotNumbered, IsTripleNumbered};
ghost use Rattle.soar_agent.specs.States.{IsReady, session_of};

use crate::outcome::Outcome;
use crate::state::Session;
use defs_run::{Addition, Operand};
use defs_soar::is_operator_slot;
use outstanding::Outstanding;
use session_parts::{Origin, Reason, Slot};
use soar_cycle::Stop;
use soar_sym::{Text, Triple};

impl<M: Outstanding> Session<M> {
    /// Adds an element to the inputs.
    pub fn add(
        &mut self,
        origin: &Origin<'_>,
        addition: Addition,
        out: &mut Text,
    ) -> Result<Outcome, Stop>
        requires ready { IsReady self.old }
        requires known { IsAdditionKnown self.old.agent.parts.table addition }
        ensures reply { Carries self.old self.new origin.now.source.now origin.now.line
            (carried_out run_learning (add_wme (operand_seen addition.id) (operand_seen addition.attr) (operand_seen addition.value))) out.old out.new result }
        ensures ready { IfOk result (λ _. IsReady self.new) }
    {
        match self.lookup(out.allocator()).first_unknown(true, &addition)? {
            Some(text) => self.refuse_with(origin, &Reason::UnknownIdentifier(text.as_str()), out),
            None => self.add_given(origin, addition, out),
        }
    }

    /// Adds an element whose identifiers there are, the first of them reached. Neither that nor the attribute makes a label.
    fn add_given(
        &mut self,
        origin: &Origin<'_>,
        addition: Addition,
        out: &mut Text,
    ) -> Result<Outcome, Stop>
        requires ready { IsReady self.old }
        requires known { IsAdditionKnown self.old.agent.parts.table addition }
        requires given { (history : ListOf RecordedFiring) →
            first_unknown true (session_of self.old history) (operand_seen addition.id) (operand_seen addition.attr) (operand_seen addition.value) ≡ None }
        ensures reply { Carries self.old self.new origin.now.source.now origin.now.line
            (λ s. added (spelled s (operand_seen addition.id) (operand_seen addition.attr) (operand_seen addition.value))) out.old out.new result }
        ensures ready { IfOk result (λ _. IsReady self.new) }
    {
        let id = self.resolve(addition.id)?;
        let attr = self.resolve(addition.attr)?;
        self.add_at_top(origin, Slot { id, attr }, addition.value, out)
    }

    /// Adds an element to an identifier, unless this is not of the top level.
    fn add_at_top(
        &mut self,
        origin: &Origin<'_>,
        slot: Slot,
        value: Operand,
        out: &mut Text,
    ) -> Result<Outcome, Stop>
        requires ready { IsReady self.old }
        requires id { IsKnown self.old.agent.parts.table slot.id }
        requires attr { IsKnown self.old.agent.parts.table slot.attr }
        requires value { IsOperandKnown self.old.agent.parts.table value }
        requires slot_numbered { IsSlotNumbered self.old.agent.parts.letters slot }
        requires value_numbered { IsOperandNumbered self.old.agent.parts.letters value }
        ensures reply { Carries self.old self.new origin.now.source.now origin.now.line (adds_at_top slot.id slot.attr (operand_seen value)) out.old out.new result }
        ensures ready { IfOk result (λ _. IsReady self.new) }
    {
        let at_top = self.lookup(out.allocator()).is_top_level(slot.id);
        if at_top {
            self.add_unless_reserved(origin, slot, value, out)
        } else {
            self.refuse_with(origin, &Reason::NotOfTheTopState, out)
        }
    }

    /// Adds an element to an identifier of the top level, unless its attribute is reserved.
    fn add_unless_reserved(
        &mut self,
        origin: &Origin<'_>,
        slot: Slot,
        value: Operand,
        out: &mut Text,
    ) -> Result<Outcome, Stop>
        requires ready { IsReady self.old }
        requires id { IsKnown self.old.agent.parts.table slot.id }
        requires attr { IsKnown self.old.agent.parts.table slot.attr }
        requires value { IsOperandKnown self.old.agent.parts.table value }
        requires slot_numbered { IsSlotNumbered self.old.agent.parts.letters slot }
        requires value_numbered { IsOperandNumbered self.old.agent.parts.letters value }
        ensures reply { Carries self.old self.new origin.now.source.now origin.now.line (adds_to slot.id slot.attr (operand_seen value)) out.old out.new result }
        ensures ready { IfOk result (λ _. IsReady self.new) }
    {
        if is_operator_slot(self.agent.goals().as_slice(), slot.id, slot.attr) {
            self.refuse_with(origin, &Reason::ReservedAttribute, out)
        } else {
            self.add_value(origin, slot, value, out)
        }
    }

    /// Adds an element with the symbol that an operand stands for.
    fn add_value(
        &mut self,
        origin: &Origin<'_>,
        slot: Slot,
        value: Operand,
        out: &mut Text,
    ) -> Result<Outcome, Stop>
        requires ready { IsReady self.old }
        requires id { IsKnown self.old.agent.parts.table slot.id }
        requires attr { IsKnown self.old.agent.parts.table slot.attr }
        requires value { IsOperandKnown self.old.agent.parts.table value }
        requires slot_numbered { IsSlotNumbered self.old.agent.parts.letters slot }
        requires value_numbered { IsOperandNumbered self.old.agent.parts.letters value }
        ensures reply { Carries self.old self.new origin.now.source.now origin.now.line (adds_by slot.id slot.attr (operand_seen value)) out.old out.new result }
        ensures ready { IfOk result (λ _. IsReady self.new) }
    {
        match value {
            Operand::Symbol(value) => self.add_triple(origin, slot.with(value), out),
            Operand::Label(name) => match self.labels.find(name.as_str()) {
                Some(value) => self.add_triple(origin, slot.with(value), out),
                None => self.put_labelled(slot, name, out),
            },
        }
    }

    /// Adds an element of symbols, unless it is there.
    fn add_triple(
        &mut self,
        origin: &Origin<'_>,
        triple: Triple,
        out: &mut Text,
    ) -> Result<Outcome, Stop>
        requires ready { IsReady self.old }
        requires known { IsTripleKnown self.old.agent.parts.table triple }
        requires numbered { IsTripleNumbered self.old.agent.parts.letters triple }
        ensures reply { Carries self.old self.new origin.now.source.now origin.now.line (adds_triple triple) out.old out.new result }
        ensures ready { IfOk result (λ _. IsReady self.new) }
    {
        match self.agent.memory().find(triple) {
            Some(tag) => self.refuse_with(origin, &Reason::AlreadyThere(tag), out),
            None => self.change_inputs(true, triple, out),
        }
    }

    /// Makes a label, and puts the triple with it behind the inputs. No element has a new identifier.
    fn put_labelled(&mut self, slot: Slot, name: Text, out: &mut Text) -> Result<Outcome, Stop>
        requires ready { IsReady self.old }
        requires id { IsKnown self.old.agent.parts.table slot.id }
        requires attr { IsKnown self.old.agent.parts.table slot.attr }
        requires slot_numbered { IsSlotNumbered self.old.agent.parts.letters slot }
        ensures reply { Replies self.old self.new (makes_labelled slot.id slot.attr name) out.old out.new result }
        ensures ready { IfOk result (λ _. IsReady self.new) }
    {
        match self.make_label(name) {
            Ok(value) => self.change_inputs(true, slot.with(value), out),
            Err(stop) => Err(stop),
        }
    }
}
