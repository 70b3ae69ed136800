// What an outcome changes at a goal, and whether the walk goes on below it.
ghost use Rattle.std.specs.Prelude.{◌≡◌, ◌<◌, ◌≤◌, suc, length, take, drop};
ghost use Rattle.defs_soar.specs.Verdicts.{impasse_place};
ghost use Rattle.defs_soar.specs.Walk.{View as ViewOf, has_impasse};
ghost use Rattle.decision_walk.specs.Steps.{Steps, stepped};
ghost use Rattle.soar_decide.specs.Outcomes as outcomes;
ghost use Rattle.soar_decide.specs.Outcomes.{outcome_seen};
ghost use Rattle.soar_goals.specs.Stack.{with_change, with_selected};

use crate::decided::Decided;
use defs_soar::{Impasse, Item, Selection};
use soar_decide::Outcome;
use soar_goals::Goals;
use soar_sym::List;
use std::alloc::Global;

/// Takes the outcome at the goal with so many above it, and tells how the walk ends if it ends there.
pub fn take_outcome(
    alloc: Global,
    goals: &mut Goals,
    above: usize,
    outcome: Outcome,
) -> Option<Decided>
    requires there { above < length goals.old }
    requires stack { length goals.old ≤ 100 }
    ensures { (v : ViewOf) → Steps v (stepped v (outcome_seen outcome) above goals.old) above goals.old goals.new result }
{
    match outcome {
        Outcome::Stays => stay(alloc, goals, above),
        Outcome::Selects {
            selection,
            takes_word,
        } => {
            end_with(goals, above, Some(selection));
            Some(Decided::Selects {
                operator: selection.operator,
                takes_word,
            })
        }
        Outcome::Impasse { why, items } => meet(goals, above, why, items),
    }
}

/// The operator stays: at the last goal nothing came of it, and that is an impasse too.
fn stay(alloc: Global, goals: &Goals, above: usize) -> Option<Decided>
    requires there { above < length goals.now }
    requires stack { length goals.now ≤ 100 }
    ensures { (v : ViewOf) → Steps v (stepped v outcomes.stays above goals.now) above goals.now goals.now result }
{
    if above + 1 < goals.list().len() {
        return None;
    }
    Some(Decided::Meets {
        why: Impasse::OperatorNoChange,
        items: List::new(alloc),
    })
}

/// An impasse: the selection ends. The goal below stays if it has this impasse, with its items renewed.
fn meet(goals: &mut Goals, above: usize, why: Impasse, items: List<Item>) -> Option<Decided>
    requires there { above < length goals.old }
    requires stack { length goals.old ≤ 100 }
    ensures { (v : ViewOf) → Steps v (stepped v (outcomes.meets why items) above goals.old) above goals.old goals.new result }
{
    if has_impasse(goals, above + 1, why) {
        goals.select(above + 1, None);
        goals.renew(above + 2, items);
        return None;
    }
    end_with(goals, above, None);
    Some(Decided::Meets { why, items })
}

/// Whether there is a goal with so many above it, and has this impasse.
fn has_impasse(goals: &Goals, above: usize, why: Impasse) -> bool
    ensures { result ≡ has_impasse why (drop above goals.now) }
{
    match goals.list().get(above) {
        Some(goal) => place(goal.impasse) == place(why),
        None => false,
    }
}

/// The place of an impasse among all kinds, by which they are told apart.
fn place(impasse: Impasse) -> u8
    ensures { result ≡ impasse_place impasse }
{
    match impasse {
        Impasse::Top => 0,
        Impasse::Tie => 1,
        Impasse::Conflict => 2,
        Impasse::Constraint => 3,
        Impasse::StateNoChange => 4,
        Impasse::OperatorNoChange => 5,
    }
}

/// Gives a goal this selection, and takes the goals below it away.
fn end_with(goals: &mut Goals, above: usize, selection: Option<Selection>)
    requires there { above < length goals.old }
    requires stack { length goals.old ≤ 100 }
    ensures { goals.new ≡ take (suc above) (with_change above (with_selected selection) goals.old) }
{
    goals.select(above + 1, selection);
    if above + 1 < goals.list().len() {
        goals.cut(above + 2);
    }
}
