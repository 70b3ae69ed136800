// The variables of conditions and actions, met in the order of the text.
ghost use Rattle.std.specs.Prelude.{◌≡◌, map, flat_map, OnOk};
ghost use Rattle.soar_rule.specs.Conditions.{condition, conditions};
ghost use Rattle.soar_rule.specs.Productions.{action_seen, preference_seen, value_seen};
ghost use Rattle.soar_rule.specs.Variables.{of_referent, referent_value, variables_of_action, variables_of_atom, variables_of_condition, variables_of_conditions, variables_of_field, variables_of_pattern, variables_of_test, variables_of_value, with_each};

use crate::action::{Action, Pref, Value};
use crate::cond::{Atom, Cond, Field, Pattern, Test};
use crate::numbering::Numbering;
use soar_sym::NoMemory;

// ---- conditions

#[cycle(conditions)]
pub fn meet_conds(numbering: &mut Numbering, conds: &[Cond]) -> Result<(), NoMemory>
    ensures { OnOk result (numbering.new.order ≡ with_each numbering.old.order (variables_of_conditions (conditions conds.now))) }
{
    'conds: for cond in conds {
        meet_cond(numbering, cond)?;
    }
    Ok(())
}

#[cycle(conditions)]
fn meet_cond(numbering: &mut Numbering, cond: &Cond) -> Result<(), NoMemory>
    ensures { OnOk result (numbering.new.order ≡ with_each numbering.old.order (variables_of_condition (condition cond.now))) }
{
    match cond {
        Cond::Pos(pattern) => meet_pattern(numbering, pattern),
        Cond::Neg(pattern) => meet_pattern(numbering, pattern),
        Cond::Conj(inside) => meet_conds(numbering, inside.as_slice()),
    }
}

#[tactic(auto, using(crate::proofs::OccurrenceLemmas::each_of_both))]
fn meet_pattern(numbering: &mut Numbering, pattern: &Pattern) -> Result<(), NoMemory>
    ensures { OnOk result (numbering.new.order ≡ with_each numbering.old.order (variables_of_pattern pattern.now)) }
{
    meet_field(numbering, &pattern.id)?;
    meet_field(numbering, &pattern.attr)?;
    meet_field(numbering, &pattern.value)
}

fn meet_field(numbering: &mut Numbering, field: &Field) -> Result<(), NoMemory>
    ensures { OnOk result (numbering.new.order ≡ with_each numbering.old.order (variables_of_field field.now)) }
{
    'tests: for test in field.tests.as_slice() {
        meet_test(numbering, test)?;
    }
    Ok(())
}

#[tactic(auto, using(crate::proofs::OccurrenceLemmas::each_of_one))]
fn meet_test(numbering: &mut Numbering, test: &Test) -> Result<(), NoMemory>
    ensures { OnOk result (numbering.new.order ≡ with_each numbering.old.order (variables_of_test test.now)) }
{
    match test {
        Test::Plain(atom) => meet_atom(numbering, *atom),
        Test::Rel(_, atom) => meet_atom(numbering, *atom),
        Test::OneOf(_) => Ok(()),
    }
}

fn meet_atom(numbering: &mut Numbering, atom: Atom) -> Result<(), NoMemory>
    ensures { OnOk result (numbering.new.order ≡ with_each numbering.old.order (variables_of_atom atom)) }
{
    match atom {
        Atom::Const(_) => Ok(()),
        Atom::Var(variable) => numbering.meet(variable),
    }
}

// ---- actions

pub fn meet_actions(numbering: &mut Numbering, actions: &[Action]) -> Result<(), NoMemory>
    ensures { OnOk result (numbering.new.order ≡ with_each numbering.old.order (flat_map variables_of_action (map action_seen actions.now))) }
{
    'actions: for action in actions {
        meet_action(numbering, action)?;
    }
    Ok(())
}

#[tactic(auto, using(crate::proofs::OccurrenceLemmas::each_of_both))]
fn meet_action(numbering: &mut Numbering, action: &Action) -> Result<(), NoMemory>
    ensures { OnOk result (numbering.new.order ≡ with_each numbering.old.order (variables_of_action (action_seen action.now))) }
{
    match action {
        Action::Make {
            id,
            attr,
            value,
            pref,
        } => {
            meet_atom(numbering, *id)?;
            meet_value(numbering, attr)?;
            meet_value(numbering, value)?;
            meet_pref(numbering, pref)
        }
        Action::Write(values) => meet_values(numbering, values.as_slice()),
        Action::Halt => Ok(()),
    }
}

fn meet_pref(numbering: &mut Numbering, pref: &Pref) -> Result<(), NoMemory>
    ensures { OnOk result (numbering.new.order ≡ with_each numbering.old.order (of_referent variables_of_value (referent_value (preference_seen pref.now)))) }
{
    match pref.referent() {
        Some(value) => meet_value(numbering, value),
        None => Ok(()),
    }
}

#[cycle(values)]
fn meet_values(numbering: &mut Numbering, values: &[Value]) -> Result<(), NoMemory>
    ensures { OnOk result (numbering.new.order ≡ with_each numbering.old.order (flat_map variables_of_value (map value_seen values.now))) }
{
    'values: for value in values {
        meet_value(numbering, value)?;
    }
    Ok(())
}

#[cycle(values)]
fn meet_value(numbering: &mut Numbering, value: &Value) -> Result<(), NoMemory>
    ensures { OnOk result (numbering.new.order ≡ with_each numbering.old.order (variables_of_value (value_seen value.now))) }
{
    match value {
        Value::Atom(atom) => meet_atom(numbering, *atom),
        Value::Call(_, values) => meet_values(numbering, values.as_slice()),
    }
}
