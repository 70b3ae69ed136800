ghost use Rattle.std.specs.Prelude.{◌≡◌, ◌<◌, ◌≤◌, ◌-◌, ◌↔◌, [], ◌∷◌, ◌++◌, length, take, IfOk, OnOk, OnErr, IsErrOf};
ghost use Rattle.defs_soar.specs.declared.goal.Impasse.TheVariants as why;
ghost use Rattle.defs_soar.specs.Decision.{new_goal};
ghost use Rattle.defs_soar.specs.Goals.{goal_elements};
ghost use Rattle.defs_soar.specs.Sorted.{in_order};
ghost use Rattle.soar_settle.specs.Known.{AreTriplesKnown};
ghost use Rattle.soar_goals.specs.declared.fault.GoalFault.TheVariants as faults;
ghost use Rattle.soar_goals.specs.Known.{AreGoalsKnown};
ghost use Rattle.soar_goals.specs.Stack.{IsStack, with_change, with_items, with_selected};

use crate::fault::GoalFault;
use crate::stack;
use defs_soar::{Goal, Impasse, Item, Selection};
use soar_settle::{add_goal_elements, in_order};
use soar_sym::{List, NoMemory, Sym, SymTable, Triple};
use std::alloc::Global;
use std::marker::Model;

/// How many goals there may be (Soar manual, chapter 2, substates; the number is this engine's).
const MOST_GOALS: usize = 100;

/// The stack of goals, the top goal first. The depth of the top goal is 1.
#[derive(Drop)]
pub struct Goals {
    entries: List<Goal>,
    alloc: Global,
}

impl Model for Goals {
    ghost use Rattle.std.specs.Prelude.{List as ListOf};
    ghost use Rattle.defs_soar.specs.declared.goal.Goal.{Goal as GoalOf};
    ghost use Rattle.soar_goals.specs.Stack.{IsStack};

    ghost Value = { ListOf GoalOf };

    ghost view = { λ goals. goals.entries };

    ghost invariant = { λ goals. IsStack goals.entries };
}

impl Goals {
    /// The top goal alone.
    pub fn new(alloc: Global, top: Sym) -> Result<Goals, NoMemory>
        ensures { IfOk result (λ goals. goals ≡ new_goal top why.Top [] ∷ []) }
    {
        let mut entries = List::new(alloc);
        entries.push(stack::new_goal(top, Impasse::Top, List::new(alloc)))?;
        Ok(Goals { entries, alloc })
    }

    /// Adds a substate below the lowest goal, with the impasse that it is for and what that is about.
    pub fn push(&mut self, id: Sym, impasse: Impasse, items: List<Item>) -> Result<(), GoalFault>
        ensures ok { OnOk result (self.new ≡ self.old ++ new_goal id impasse items ∷ []) }
        ensures too_deep { IsErrOf result faults.TooDeep ↔ (length self.old ≡ 100) }
        ensures err { OnErr result (self.new ≡ self.old) }
    {
        if self.entries.len() >= MOST_GOALS {
            return Err(GoalFault::TooDeep);
        }
        match self.entries.push(stack::new_goal(id, impasse, items)) {
            Ok(()) => Ok(()),
            Err(_) => Err(GoalFault::NoMemory),
        }
    }

    /// The goals, from the top.
    pub fn list(&self) -> &List<Goal>
        ensures goals { result.now ≡ self.now }
        ensures stack { IsStack self.now }
    {
        &self.entries
    }

    /// Takes the goal of a depth away, and all that are deeper.
    pub fn cut(&mut self, depth: usize)
        requires substate { 1 < depth }
        requires there { depth ≤ length self.old }
        ensures { self.new ≡ take (depth - 1) self.old }
    {
        stack::keep(&mut self.entries, self.alloc, depth - 1);
    }

    /// Changes the selected operator of the goal of a depth.
    pub fn select(&mut self, depth: usize, selection: Option<Selection>)
        requires goal { 1 ≤ depth }
        requires there { depth ≤ length self.old }
        ensures goals { self.new ≡ with_change (depth - 1) (with_selected selection) self.old }
        ensures length { length self.new ≡ length self.old }
    {
        stack::select(&mut self.entries, self.alloc, depth - 1, selection);
    }

    /// Changes what the impasse of the goal of a depth is about.
    pub fn renew(&mut self, depth: usize, items: List<Item>)
        requires goal { 1 ≤ depth }
        requires there { depth ≤ length self.old }
        ensures goals { self.new ≡ with_change (depth - 1) (with_items items) self.old }
        ensures length { length self.new ≡ length self.old }
    {
        stack::renew(&mut self.entries, self.alloc, depth - 1, items);
    }

    /// The goals' own elements are of the table where the goals are. A law for callers' proofs: nothing is done.
    pub fn law(&self, table: &SymTable)
        requires { AreGoalsKnown table.now self.now }
        ensures { AreTriplesKnown table.now (goal_elements self.now) }
    {
        table.law();
    }

    /// The goals' own elements (Soar manual, chapter 2, impasses and substates), in order of triple (the order is this engine's).
    pub fn elements(&self, alloc: Global, table: &SymTable) -> Result<List<Triple>, NoMemory>
        requires { AreTriplesKnown table.now (goal_elements self.now) }
        ensures { IfOk result (λ elements. elements ≡ in_order table.now (goal_elements self.now)) }
    {
        let mut elements = List::new(alloc);
        add_goal_elements(&mut elements, self.entries.as_slice())?;
        in_order(alloc, table, elements.as_slice())
    }
}
