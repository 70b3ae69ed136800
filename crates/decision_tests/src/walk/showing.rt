// Goals, and how a walk ends, as a text.
use crate::walk::symbols::push_symbol;
use decision_walk::Decided;
use defs_soar::{Goal, Impasse, Item};
use soar_sym::{Sym, Text};
use std::alloc::{AllocError, Global};

/// The goals left and the end of a walk.
pub fn shown(alloc: Global, goals: &[Goal], decided: &Decided) -> Result<Text, AllocError> {
    let mut out = Text::new(alloc);
    for goal in goals {
        push_goal(&mut out, goal)?;
    }
    push_end(&mut out, decided)?;
    Ok(out)
}

/// Its impasse, its selected operator, and its items.
fn push_goal(out: &mut Text, goal: &Goal) -> Result<(), AllocError> {
    out.push_str(name_of(goal.impasse))?;
    match goal.selected {
        Some(selection) => push_named(out, " ", selection.operator)?,
        None => out.push_str(" -")?,
    }
    if !goal.items.is_empty() {
        out.push_str(":")?;
    }
    push_items(out, goal.items.as_slice())?;
    out.push_str("; ")
}

fn push_named(out: &mut Text, name: &str, operator: Sym) -> Result<(), AllocError> {
    out.push_str(name)?;
    push_symbol(out, operator)
}

fn push_items(out: &mut Text, items: &[Item]) -> Result<(), AllocError> {
    for item in items {
        push_named(out, " ", item.value)?;
    }
    Ok(())
}

fn push_end(out: &mut Text, decided: &Decided) -> Result<(), AllocError> {
    match decided {
        Decided::Selects {
            operator,
            takes_word,
        } => push_named(
            out,
            if *takes_word { "draws " } else { "takes " },
            *operator,
        ),
        Decided::Meets { why, items } => {
            out.push_str("meets ")?;
            out.push_str(name_of(*why))?;
            push_items(out, items.as_slice())
        }
    }
}

fn name_of(why: Impasse) -> &'static str {
    match why {
        Impasse::Top => "top",
        Impasse::Tie => "tie",
        Impasse::Conflict => "conflict",
        Impasse::Constraint => "constraint",
        Impasse::StateNoChange => "state",
        Impasse::OperatorNoChange => "operator",
    }
}
