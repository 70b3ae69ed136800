// Attributes that no command sets.
ghost use Rattle.std.specs.Prelude.{◌≡◌};
ghost use Rattle.defs_soar.specs.Goals.{is_goal, is_operator_slot};
ghost use Rattle.defs_run.specs.Inputs.{is_reserved, spelled};
ghost use Rattle.defs_run.specs.Sessions.{Session, resolved};
ghost use Rattle.command_orders.specs.Asked.{operand_seen};
ghost use Rattle.command_orders.specs.Known.{IsAdditionKnown};
ghost use Rattle.session_parts.specs.Labels.{next_identifier};
ghost use Rattle.session_parts.specs.Lookups.{session_with};

use crate::elements::is_identifier;
use crate::letters::letter_from;
use crate::lookup::Lookup;
use defs_run::{Addition, Operand};
use defs_soar::{Goal, is_goal};
use soar_sym::architecture::OPERATOR;
use soar_sym::{Sym, is_symbol};

impl Lookup<'_> {
    /// Whether an addition would tell the operator of a goal, once its labels stand for identifiers.
    pub fn is_reserved(&self, addition: &Addition) -> bool
        requires { IsAdditionKnown self.now.table.now addition.now }
        ensures { (s : Session) → let t = spelled (session_with self.now s) (operand_seen addition.now.id) (operand_seen addition.now.attr) (operand_seen addition.now.value) in
            result ≡ is_reserved t.session t.triple }
    {
        match &addition.attr {
            Operand::Symbol(attr) => self.is_operator_slot(&addition.id, *attr),
            Operand::Label(_) => false,
        }
    }

    /// Whether an attribute of the identifier that an operand stands for, or will, tells the operator of a goal.
    fn is_operator_slot(&self, id: &Operand, attr: Sym) -> bool
        ensures { (s : Session) → result ≡ is_operator_slot self.now.goals.now (resolved (session_with self.now s) (operand_seen id.now)).symbol attr }
    {
        is_symbol(attr, OPERATOR) && self.is_goal_in(id)
    }

    /// Whether an operand stands for the identifier of a goal, or will.
    fn is_goal_in(&self, operand: &Operand) -> bool
        ensures { (s : Session) → result ≡ is_goal self.now.goals.now (resolved (session_with self.now s) (operand_seen operand.now)).symbol }
    {
        match operand {
            Operand::Symbol(symbol) => is_goal(self.goals.as_slice(), *symbol),
            Operand::Label(name) => match self.labels.find(name.as_str()) {
                Some(symbol) => is_goal(self.goals.as_slice(), symbol),
                None => self.is_goal_next(name.as_str()),
            },
        }
    }

    /// Whether the identifier that a label of this name would be is that of a goal.
    fn is_goal_next(&self, name: &str) -> bool
        ensures { result ≡ is_goal self.now.goals.now (next_identifier self.now.letters.now name.now) }
    {
        let letter = letter_from(name.as_bytes());
        let number = u64::from(self.letters.last(letter)) + 1;
        is_goal_numbered(self.goals.as_slice(), letter, number)
    }
}

/// Whether the identifier of a letter and a number is that of a goal.
fn is_goal_numbered(goals: &[Goal], letter: u8, number: u64) -> bool
    ensures { result ≡ is_goal goals.now (Sym.Ident letter number) }
{
    'goals: for goal in goals {
        if is_identifier(goal.id, letter, number) {
            return true;
        }
    }
    false
}
