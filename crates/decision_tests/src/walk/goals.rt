// The stack of goals, from a text.
use crate::walk::symbols::{goal_below, symbol};
use defs_soar::{Impasse, Selection};
use soar_goals::Goals;
use soar_sym::{List, NoMemory};
use std::alloc::Global;

/// The goals that words such as `tie:A` spell, from the top: an impasse, and the selected operator. They have no items.
pub fn goals_of(alloc: Global, text: &str) -> Result<Goals, NoMemory> {
    let mut goals = Goals::new(alloc, goal_below(0))?;
    for word in text.split_whitespace() {
        if let Some((impasse, selected)) = word.split_once(':') {
            add_goal(alloc, &mut goals, impasse)?;
            select_last(&mut goals, selected);
        }
    }
    Ok(goals)
}

/// Adds a goal, but for `top`, which is there.
fn add_goal(alloc: Global, goals: &mut Goals, name: &str) -> Result<(), NoMemory> {
    let Some(impasse) = impasse_of(name) else {
        return Ok(());
    };
    let id = goal_below(goals.list().len());
    match goals.push(id, impasse, List::new(alloc)) {
        Ok(()) => Ok(()),
        Err(_) => Err(NoMemory),
    }
}

fn select_last(goals: &mut Goals, selected: &str) {
    let depth = goals.list().len();
    if let Some(operator) = symbol(selected) {
        let selection = Selection {
            operator,
            tag: 0,
            maker: 0,
        };
        goals.select(depth, Some(selection));
    }
}

fn impasse_of(name: &str) -> Option<Impasse> {
    match name {
        "tie" => Some(Impasse::Tie),
        "conflict" => Some(Impasse::Conflict),
        "constraint" => Some(Impasse::Constraint),
        "state" => Some(Impasse::StateNoChange),
        "operator" => Some(Impasse::OperatorNoChange),
        _ => None,
    }
}
