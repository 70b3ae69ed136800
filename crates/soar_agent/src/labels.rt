// The identifiers that labels stand for.
ghost use Rattle.std.specs.Prelude.{◌≡◌, List as ListOf, Some, None, Ok, IfOk, map};
ghost use Rattle.soar_sym.specs.Words.{IsKnown};
ghost use Rattle.soar_sym.specs.declared.symbol.Sym.{Sym as SymOf};
ghost use Rattle.defs_run.specs.Sessions.{labelled, resolved};
ghost use Rattle.defs_soar.specs.History.{RecordedFiring};
ghost use Rattle.learning_laws.specs.LawfulAgents.{IsNumbered};
ghost use Rattle.letter_laws.specs.Grows.{LettersGrow};
ghost use Rattle.soar_cycle.specs.Remembers.{Remembers};
ghost use Rattle.command_orders.specs.Asked.{operand_seen};
ghost use Rattle.command_orders.specs.Known.{IsOperandKnown};
ghost use Rattle.command_labels.specs.Found.{label_seen};
ghost use Rattle.session_parts.specs.Labels.{symbol_in};
ghost use Rattle.soar_agent.specs.Labels.{Makes};
ghost use Rattle.soar_agent.specs.Numbered.{IsOperandNumbered};
ghost use Rattle.soar_agent.specs.States.{IsReady, session_of};

use crate::state::Session;
use command_labels::Label;
use defs_run::Operand;
use outstanding::Outstanding;
use session_parts::letter_from;
use soar_cycle::Stop;
use soar_sym::{Sym, Text};

impl<M: Outstanding> Session<M> {
    /// The symbol that an operand stands for. A label that is used for the first time becomes a new identifier.
    pub fn resolve(&mut self, operand: Operand) -> Result<Sym, Stop>
        requires ready { IsReady self.old }
        requires known { IsOperandKnown self.old.agent.parts.table operand }
        ensures symbol { (history : ListOf RecordedFiring) → Remembers self.old.agent.parts history → Makes self.new (resolved (session_of self.old history) (operand_seen operand)) history result }
        ensures known { IfOk result (λ symbol. IsKnown self.new.agent.parts.table symbol) }
        ensures numbered { IsOperandNumbered self.old.agent.parts.letters operand → IfOk result (λ symbol. IsNumbered self.new.agent.parts.letters symbol) }
        ensures letters { IfOk result (λ _. LettersGrow self.old.agent.parts.letters self.new.agent.parts.letters) }
        ensures standing { (symbol : SymOf) → symbol_in (map label_seen self.old.labels) (operand_seen operand) ≡ Some symbol → (result ≡ Ok symbol) × (self.new ≡ self.old) }
        ensures table { IfOk result (λ _. self.new.agent.parts.table ≡ self.old.agent.parts.table) }
        ensures ready { IfOk result (λ _. IsReady self.new) }
        ensures mid_line { self.new.agent.mid_line ≡ self.old.agent.mid_line }
    {
        match operand {
            Operand::Symbol(symbol) => Ok(symbol),
            Operand::Label(name) => match self.labels.find(name.as_str()) {
                Some(symbol) => Ok(symbol),
                None => self.make_label(name),
            },
        }
    }

    /// Makes a label, which stands for the next identifier of its letter.
    pub fn make_label(&mut self, name: Text) -> Result<Sym, Stop>
        requires { IsReady self.old }
        ensures symbol { (history : ListOf RecordedFiring) → Remembers self.old.agent.parts history → Makes self.new (labelled (session_of self.old history) name None) history result }
        ensures known { IfOk result (λ symbol. IsKnown self.new.agent.parts.table symbol) }
        ensures numbered { IfOk result (λ symbol. IsNumbered self.new.agent.parts.letters symbol) }
        ensures letters { IfOk result (λ _. LettersGrow self.old.agent.parts.letters self.new.agent.parts.letters) }
        ensures table { IfOk result (λ _. self.new.agent.parts.table ≡ self.old.agent.parts.table) }
        ensures ready { IfOk result (λ _. IsReady self.new) }
        ensures mid_line { self.new.agent.mid_line ≡ self.old.agent.mid_line }
    {
        let letter = letter_from(name.as_str().as_bytes());
        match self.agent.fresh(letter) {
            Ok(symbol) => {
                self.labels.add(Label { name, symbol })?;
                Ok(symbol)
            }
            Err(stop) => Err(stop),
        }
    }
}
