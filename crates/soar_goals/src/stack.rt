// Goals as a list, the top goal first.
ghost use Rattle.std.specs.Prelude.{◌≡◌, ◌<◌, [], length, take};
ghost use Rattle.defs_soar.specs.Decision.{new_goal};
ghost use Rattle.soar_goals.specs.Stack.{with_change, with_items, with_selected};

use defs_soar::{Goal, Impasse, Item, Selection};
use soar_sym::{List, Sym};
use std::alloc::Global;
use std::mem;

/// A goal for which no operator is selected.
pub fn new_goal(id: Sym, impasse: Impasse, items: List<Item>) -> Goal
    ensures { result ≡ new_goal id impasse items }
{
    Goal {
        id,
        impasse,
        items,
        selected: None,
    }
}

/// Takes all goals out, to change them where they stand. It takes no memory.
fn taken(goals: &mut List<Goal>, alloc: Global) -> Vec<Goal>
    ensures all { result.items ≡ goals.old }
    ensures none { goals.new ≡ [] }
{
    mem::replace(goals, List::new(alloc)).into_vec()
}

/// Keeps so many goals from the top.
pub fn keep(goals: &mut List<Goal>, alloc: Global, count: usize)
    ensures { goals.new ≡ take count goals.old }
{
    let mut all = taken(goals, alloc);
    all.truncate(count);
    *goals = List::from_vec(all);
}

/// Changes the selected operator of a goal, so many goals below the top.
pub fn select(goals: &mut List<Goal>, alloc: Global, below: usize, selection: Option<Selection>)
    requires { below < length goals.old }
    ensures { goals.new ≡ with_change below (with_selected selection) goals.old }
{
    let mut all = taken(goals, alloc);
    all[below].selected = selection;
    *goals = List::from_vec(all);
}

/// Changes the items of a goal, so many goals below the top.
pub fn renew(goals: &mut List<Goal>, alloc: Global, below: usize, items: List<Item>)
    requires { below < length goals.old }
    ensures { goals.new ≡ with_change below (with_items items) goals.old }
{
    let mut all = taken(goals, alloc);
    all[below].items = items;
    *goals = List::from_vec(all);
}
