// The entries of the goal stack.
ghost use Rattle.std.specs.Prelude.{◌≡◌};
ghost use Rattle.defs_soar.specs.Goals as meaning;

use soar_sym::architecture::OPERATOR;
use soar_sym::{List, Sym, is_symbol};

/// Why a goal is there (Soar manual, chapter 2, impasses).
#[derive(Clone, Copy, PartialEq, Eq)]
pub enum Impasse {
    /// The top goal.
    Top,
    Tie,
    Conflict,
    Constraint,
    StateNoChange,
    OperatorNoChange,
}

/// A value that an impasse is about, whether it has a numeric preference, and the tag of its marked element.
#[derive(Clone, Copy, PartialEq, Eq)]
pub struct Item {
    pub value: Sym,
    pub numeric: bool,
    pub tag: u32,
}

/// A selected operator, the tag of its marked element when it was selected, and the least number of a firing
/// that had an acceptable or require preference for it then.
#[derive(Clone, Copy, PartialEq, Eq)]
pub struct Selection {
    pub operator: Sym,
    pub tag: u32,
    pub maker: u64,
}

/// An entry of the goal stack.
#[derive(Drop)]
pub struct Goal {
    pub id: Sym,
    pub impasse: Impasse,
    pub items: List<Item>,
    pub selected: Option<Selection>,
}

/// Whether the symbol is the identifier of a goal.
pub fn is_goal(goals: &[Goal], symbol: Sym) -> bool
    ensures { result ≡ meaning.is_goal goals.now symbol }
{
    'goals: for goal in goals {
        if is_symbol(symbol, goal.id) {
            return true;
        }
    }
    false
}

/// Whether an attribute of an identifier tells the operator of a goal.
pub fn is_operator_slot(goals: &[Goal], id: Sym, attr: Sym) -> bool
    ensures { result ≡ meaning.is_operator_slot goals.now id attr }
{
    is_symbol(attr, OPERATOR) && is_goal(goals, id)
}
