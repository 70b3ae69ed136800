// The goals among the constants of a rule, in the order of the text.
ghost use Rattle.std.specs.Prelude.{◌≡◌, ◌++◌, flat_map, map, OnOk};
ghost use Rattle.soar_rule.specs.Conditions.{condition, conditions};
ghost use Rattle.soar_rule.specs.Productions.{action_seen, preference_seen, production_seen, value_seen};
ghost use Rattle.soar_rule.specs.Symbols.{constants_of, constants_of_action, constants_of_atom, constants_of_condition, constants_of_conditions, constants_of_field, constants_of_pattern, constants_of_referent, constants_of_test, constants_of_value};
ghost use Rattle.soar_rule.specs.Variables.{referent_value};
ghost use Rattle.firing_records.specs.Among.{goals_in};

use defs_soar::{Goal, is_goal};
use soar_rule::{Action, Atom, Cond, Field, Pattern, Pref, Production, Test, Value};
use soar_sym::{List, NoMemory, Sym};

/// Adds the goals among the constants of a production.
pub fn add_constants(
    found: &mut List<Sym>,
    goals: &[Goal],
    production: &Production,
) -> Result<(), NoMemory>
    ensures { OnOk result (found.new ≡ found.old ++ goals_in goals.now (constants_of (production_seen production.now))) }
{
    add_conds(found, goals, production.conds.as_slice())?;
    add_actions(found, goals, production.actions.as_slice())
}

/// Adds those of the symbols that are goals.
pub fn add_symbols(found: &mut List<Sym>, goals: &[Goal], symbols: &[Sym]) -> Result<(), NoMemory>
    ensures { OnOk result (found.new ≡ found.old ++ goals_in goals.now symbols.now) }
{
    'symbols: for symbol in symbols {
        if is_goal(goals, *symbol) {
            found.push(*symbol)?;
        }
    }
    Ok(())
}

// ---- conditions

#[cycle(conditions)]
fn add_conds(found: &mut List<Sym>, goals: &[Goal], conds: &[Cond]) -> Result<(), NoMemory>
    ensures { OnOk result (found.new ≡ found.old ++ goals_in goals.now (constants_of_conditions (conditions conds.now))) }
{
    'conds: for cond in conds {
        add_cond(found, goals, cond)?;
    }
    Ok(())
}

#[cycle(conditions)]
fn add_cond(found: &mut List<Sym>, goals: &[Goal], cond: &Cond) -> Result<(), NoMemory>
    ensures { OnOk result (found.new ≡ found.old ++ goals_in goals.now (constants_of_condition (condition cond.now))) }
{
    match cond {
        Cond::Pos(pattern) => add_pattern(found, goals, pattern),
        Cond::Neg(pattern) => add_pattern(found, goals, pattern),
        Cond::Conj(inside) => add_conds(found, goals, inside.as_slice()),
    }
}

fn add_pattern(found: &mut List<Sym>, goals: &[Goal], pattern: &Pattern) -> Result<(), NoMemory>
    ensures { OnOk result (found.new ≡ found.old ++ goals_in goals.now (constants_of_pattern pattern.now)) }
{
    add_field(found, goals, &pattern.id)?;
    add_field(found, goals, &pattern.attr)?;
    add_field(found, goals, &pattern.value)
}

fn add_field(found: &mut List<Sym>, goals: &[Goal], field: &Field) -> Result<(), NoMemory>
    ensures { OnOk result (found.new ≡ found.old ++ goals_in goals.now (constants_of_field field.now)) }
{
    'tests: for test in field.tests.as_slice() {
        add_test(found, goals, test)?;
    }
    Ok(())
}

fn add_test(found: &mut List<Sym>, goals: &[Goal], test: &Test) -> Result<(), NoMemory>
    ensures { OnOk result (found.new ≡ found.old ++ goals_in goals.now (constants_of_test test.now)) }
{
    match test {
        Test::Plain(atom) => add_atom(found, goals, *atom),
        Test::Rel(_, atom) => add_atom(found, goals, *atom),
        Test::OneOf(symbols) => add_symbols(found, goals, symbols.as_slice()),
    }
}

fn add_atom(found: &mut List<Sym>, goals: &[Goal], atom: Atom) -> Result<(), NoMemory>
    ensures { OnOk result (found.new ≡ found.old ++ goals_in goals.now (constants_of_atom atom)) }
{
    match atom {
        Atom::Const(symbol) => add_symbols(found, goals, &[symbol]),
        Atom::Var(_) => Ok(()),
    }
}

// ---- actions

fn add_actions(found: &mut List<Sym>, goals: &[Goal], actions: &[Action]) -> Result<(), NoMemory>
    ensures { OnOk result (found.new ≡ found.old ++ goals_in goals.now (flat_map constants_of_action (map action_seen actions.now))) }
{
    'actions: for action in actions {
        add_action(found, goals, action)?;
    }
    Ok(())
}

fn add_action(found: &mut List<Sym>, goals: &[Goal], action: &Action) -> Result<(), NoMemory>
    ensures { OnOk result (found.new ≡ found.old ++ goals_in goals.now (constants_of_action (action_seen action.now))) }
{
    match action {
        Action::Make {
            id,
            attr,
            value,
            pref,
        } => {
            add_atom(found, goals, *id)?;
            add_value(found, goals, attr)?;
            add_value(found, goals, value)?;
            add_pref(found, goals, pref)
        }
        Action::Write(values) => add_values(found, goals, values.as_slice()),
        Action::Halt => Ok(()),
    }
}

fn add_pref(found: &mut List<Sym>, goals: &[Goal], pref: &Pref) -> Result<(), NoMemory>
    ensures { OnOk result (found.new ≡ found.old ++ goals_in goals.now (constants_of_referent (referent_value (preference_seen pref.now)))) }
{
    match pref.referent() {
        Some(value) => add_value(found, goals, value),
        None => Ok(()),
    }
}

#[cycle(values)]
fn add_values(found: &mut List<Sym>, goals: &[Goal], values: &[Value]) -> Result<(), NoMemory>
    ensures { OnOk result (found.new ≡ found.old ++ goals_in goals.now (flat_map constants_of_value (map value_seen values.now))) }
{
    'values: for value in values {
        add_value(found, goals, value)?;
    }
    Ok(())
}

#[cycle(values)]
fn add_value(found: &mut List<Sym>, goals: &[Goal], value: &Value) -> Result<(), NoMemory>
    ensures { OnOk result (found.new ≡ found.old ++ goals_in goals.now (constants_of_value (value_seen value.now))) }
{
    match value {
        Value::Atom(atom) => add_atom(found, goals, *atom),
        Value::Call(_, values) => add_values(found, goals, values.as_slice()),
    }
}
