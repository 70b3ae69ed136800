// Copies of conditions and actions, with new numbers of variables, or with those that there are.
ghost use Rattle.std.specs.Prelude.{◌≡◌, map, None, IfOk};
ghost use Rattle.std.specs.Option.{option_copied};
ghost use Rattle.soar_rule.specs.Conditions.{condition, conditions};
ghost use Rattle.soar_rule.specs.Productions.{action_seen, preference_seen, value_seen};
ghost use Rattle.soar_rule.specs.Renumbering.{renumbered_by};
ghost use Rattle.soar_rule.specs.Renaming.{action_with, condition_with, conditions_with, field_with, pattern_with, preference_with, test_with, value_with};

use crate::action::{Action, Pref, Value};
use crate::adding::{added, room_for};
use crate::cond::{Atom, Cond, Field, Pattern, Test};
use crate::numbering::Numbering;
use soar_sym::{List, NoMemory};
use std::alloc::Global;

// ---- conditions

#[cycle(conditions)]
pub fn renumber_conds(
    numbering: Option<&Numbering>,
    conds: &[Cond],
    alloc: Global,
) -> Result<List<Cond>, NoMemory>
    ensures renumbered { IfOk result (λ copy. conditions copy ≡ conditions_with (renumbered_by (option_copied numbering.entry)) (conditions conds.now)) }
    ensures kept { numbering.entry ≡ None → IfOk result (λ copy. copy ≡ conds.now) }
{
    let mut out = room_for(alloc, conds.len())?;
    'conds: for cond in conds {
        out = added(out, renumber_cond(numbering, cond, alloc))?;
    }
    Ok(out)
}

#[cycle(conditions)]
fn renumber_cond(
    numbering: Option<&Numbering>,
    cond: &Cond,
    alloc: Global,
) -> Result<Cond, NoMemory>
    ensures renumbered { IfOk result (λ copy. condition copy ≡ condition_with (renumbered_by (option_copied numbering.entry)) (condition cond.now)) }
    ensures kept { numbering.entry ≡ None → IfOk result (λ copy. copy ≡ cond.now) }
{
    match cond {
        Cond::Pos(pattern) => Ok(Cond::Pos(renumber_pattern(numbering, pattern, alloc)?)),
        Cond::Neg(pattern) => Ok(Cond::Neg(renumber_pattern(numbering, pattern, alloc)?)),
        Cond::Conj(inside) => Ok(Cond::Conj(renumber_conds(numbering, inside.as_slice(), alloc)?)),
    }
}

pub fn renumber_pattern(
    numbering: Option<&Numbering>,
    pattern: &Pattern,
    alloc: Global,
) -> Result<Pattern, NoMemory>
    ensures renumbered { IfOk result (λ copy. copy ≡ pattern_with (renumbered_by (option_copied numbering.entry)) pattern.now) }
    ensures kept { numbering.entry ≡ None → IfOk result (λ copy. copy ≡ pattern.now) }
{
    let id = renumber_field(numbering, &pattern.id, alloc)?;
    let attr = renumber_field(numbering, &pattern.attr, alloc)?;
    let value = renumber_field(numbering, &pattern.value, alloc)?;
    Ok(Pattern {
        state: pattern.state,
        id,
        attr,
        value,
        accept: pattern.accept,
    })
}

fn renumber_field(
    numbering: Option<&Numbering>,
    field: &Field,
    alloc: Global,
) -> Result<Field, NoMemory>
    ensures renumbered { IfOk result (λ copy. copy ≡ field_with (renumbered_by (option_copied numbering.entry)) field.now) }
    ensures kept { numbering.entry ≡ None → IfOk result (λ copy. copy ≡ field.now) }
{
    let mut tests = room_for(alloc, field.tests.len())?;
    'tests: for test in field.tests.as_slice() {
        tests = added(tests, renumber_test(numbering, test, alloc))?;
    }
    Ok(Field { tests })
}

fn renumber_test(
    numbering: Option<&Numbering>,
    test: &Test,
    alloc: Global,
) -> Result<Test, NoMemory>
    ensures renumbered { IfOk result (λ copy. copy ≡ test_with (renumbered_by (option_copied numbering.entry)) test.now) }
    ensures kept { numbering.entry ≡ None → IfOk result (λ copy. copy ≡ test.now) }
{
    match test {
        Test::Plain(atom) => Ok(Test::Plain(renumber_atom(numbering, *atom))),
        Test::Rel(relation, atom) => Ok(Test::Rel(*relation, renumber_atom(numbering, *atom))),
        Test::OneOf(symbols) => Ok(Test::OneOf(List::from_slice(alloc, symbols.as_slice())?)),
    }
}

fn renumber_atom(numbering: Option<&Numbering>, atom: Atom) -> Atom
    ensures { result ≡ renumbered_by (option_copied numbering.entry) atom }
{
    match (atom, numbering) {
        (Atom::Var(variable), Some(numbering)) => Atom::Var(numbering.number(variable)),
        _ => atom,
    }
}

// ---- actions

pub fn renumber_actions(
    numbering: Option<&Numbering>,
    actions: &[Action],
    alloc: Global,
) -> Result<List<Action>, NoMemory>
    ensures renumbered { IfOk result (λ copy. map action_seen copy ≡ map (action_with (renumbered_by (option_copied numbering.entry))) (map action_seen actions.now)) }
    ensures kept { numbering.entry ≡ None → IfOk result (λ copy. copy ≡ actions.now) }
{
    let mut out = room_for(alloc, actions.len())?;
    'actions: for action in actions {
        out = added(out, renumber_action(numbering, action, alloc))?;
    }
    Ok(out)
}

fn renumber_action(
    numbering: Option<&Numbering>,
    action: &Action,
    alloc: Global,
) -> Result<Action, NoMemory>
    ensures renumbered { IfOk result (λ copy. action_seen copy ≡ action_with (renumbered_by (option_copied numbering.entry)) (action_seen action.now)) }
    ensures kept { numbering.entry ≡ None → IfOk result (λ copy. copy ≡ action.now) }
{
    match action {
        Action::Make {
            id,
            attr,
            value,
            pref,
        } => {
            let attr = renumber_value(numbering, attr, alloc)?;
            let value = renumber_value(numbering, value, alloc)?;
            let pref = renumber_pref(numbering, pref, alloc)?;
            Ok(Action::Make {
                id: renumber_atom(numbering, *id),
                attr,
                value,
                pref,
            })
        }
        Action::Write(values) => Ok(Action::Write(renumber_values(
            numbering,
            values.as_slice(),
            alloc,
        )?)),
        Action::Halt => Ok(Action::Halt),
    }
}

fn renumber_pref(
    numbering: Option<&Numbering>,
    pref: &Pref,
    alloc: Global,
) -> Result<Pref, NoMemory>
    ensures renumbered { IfOk result (λ copy. preference_seen copy ≡ preference_with (renumbered_by (option_copied numbering.entry)) (preference_seen pref.now)) }
    ensures kept { numbering.entry ≡ None → IfOk result (λ copy. copy ≡ pref.now) }
{
    match pref {
        Pref::Accept => Ok(Pref::Accept),
        Pref::Reject => Ok(Pref::Reject),
        Pref::Require => Ok(Pref::Require),
        Pref::Prohibit => Ok(Pref::Prohibit),
        Pref::Better(value) => Ok(Pref::Better(renumber_value(numbering, value, alloc)?)),
        Pref::Worse(value) => Ok(Pref::Worse(renumber_value(numbering, value, alloc)?)),
        Pref::Best => Ok(Pref::Best),
        Pref::Worst => Ok(Pref::Worst),
        Pref::Indifferent => Ok(Pref::Indifferent),
        Pref::IndifferentTo(value) => Ok(Pref::IndifferentTo(renumber_value(
            numbering, value, alloc,
        )?)),
    }
}

#[cycle(values)]
fn renumber_values(
    numbering: Option<&Numbering>,
    values: &[Value],
    alloc: Global,
) -> Result<List<Value>, NoMemory>
    ensures renumbered { IfOk result (λ copy. map value_seen copy ≡ map (value_with (renumbered_by (option_copied numbering.entry))) (map value_seen values.now)) }
    ensures kept { numbering.entry ≡ None → IfOk result (λ copy. copy ≡ values.now) }
{
    let mut out = room_for(alloc, values.len())?;
    'values: for value in values {
        out = added(out, renumber_value(numbering, value, alloc))?;
    }
    Ok(out)
}

#[cycle(values)]
fn renumber_value(
    numbering: Option<&Numbering>,
    value: &Value,
    alloc: Global,
) -> Result<Value, NoMemory>
    ensures renumbered { IfOk result (λ copy. value_seen copy ≡ value_with (renumbered_by (option_copied numbering.entry)) (value_seen value.now)) }
    ensures kept { numbering.entry ≡ None → IfOk result (λ copy. copy ≡ value.now) }
{
    match value {
        Value::Atom(atom) => Ok(Value::Atom(renumber_atom(numbering, *atom))),
        Value::Call(func, values) => Ok(Value::Call(
            *func,
            renumber_values(numbering, values.as_slice(), alloc)?,
        )),
    }
}
