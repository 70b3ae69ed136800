// Whether a symbol stands as a constant in a production.
ghost use Rattle.std.specs.Prelude.{◌≡◌, flat_map, map};
ghost use Rattle.defs_soar.specs.Sorted.{has_symbol};
ghost use Rattle.soar_rule.specs.Conditions.{condition, conditions};
ghost use Rattle.soar_rule.specs.Productions.{action_seen, preference_seen, production_seen, value_seen, values_of};
ghost use Rattle.soar_rule.specs.Symbols.{constants_of, constants_of_action, constants_of_atom, constants_of_condition, constants_of_conditions, constants_of_field, constants_of_pattern, constants_of_referent, constants_of_test, constants_of_value, constants_of_values};
ghost use Rattle.soar_rule.specs.Variables.{referent_value};

use soar_rule::{Action, Atom, Cond, Field, Pattern, Pref, Production, Test, Value};
use soar_sym::{Sym, is_symbol};

/// Whether the symbol is a constant of the conditions or the actions.
#[tactic(auto, using(crate::proofs::ConstantLemmas::has_in_both))]
pub fn has_constant(production: &Production, symbol: Sym) -> bool
    ensures { result ≡ has_symbol (constants_of (production_seen production.now)) symbol }
{
    has_in_conditions(production.conds.as_slice(), symbol)
        || has_in_actions(production.actions.as_slice(), symbol)
}

// ---- conditions

#[cycle(conditions)]
#[tactic(auto, using(crate::proofs::ConstantLemmas::has_in_both))]
fn has_in_conditions(conds: &[Cond], symbol: Sym) -> bool
    ensures { result ≡ has_symbol (constants_of_conditions (conditions conds.now)) symbol }
{
    'conds: for cond in conds {
        if has_in_condition(cond, symbol) {
            return true;
        }
    }
    false
}

#[cycle(conditions)]
fn has_in_condition(cond: &Cond, symbol: Sym) -> bool
    ensures { result ≡ has_symbol (constants_of_condition (condition cond.now)) symbol }
{
    match cond {
        Cond::Pos(pattern) => has_in_pattern(pattern, symbol),
        Cond::Neg(pattern) => has_in_pattern(pattern, symbol),
        Cond::Conj(inside) => has_in_conditions(inside.as_slice(), symbol),
    }
}

#[tactic(auto, using(crate::proofs::ConstantLemmas::has_in_both))]
fn has_in_pattern(pattern: &Pattern, symbol: Sym) -> bool
    ensures { result ≡ has_symbol (constants_of_pattern pattern.now) symbol }
{
    has_in_field(&pattern.id, symbol)
        || has_in_field(&pattern.attr, symbol)
        || has_in_field(&pattern.value, symbol)
}

#[tactic(auto, using(crate::proofs::ConstantLemmas::has_in_both))]
fn has_in_field(field: &Field, symbol: Sym) -> bool
    ensures { result ≡ has_symbol (constants_of_field field.now) symbol }
{
    'tests: for test in field.tests.as_slice() {
        if has_in_test(test, symbol) {
            return true;
        }
    }
    false
}

fn has_in_test(test: &Test, symbol: Sym) -> bool
    ensures { result ≡ has_symbol (constants_of_test test.now) symbol }
{
    match test {
        Test::Plain(atom) => is_constant(*atom, symbol),
        Test::Rel(_, atom) => is_constant(*atom, symbol),
        Test::OneOf(symbols) => is_among(symbols.as_slice(), symbol),
    }
}

fn is_constant(atom: Atom, symbol: Sym) -> bool
    ensures { result ≡ has_symbol (constants_of_atom atom) symbol }
{
    match atom {
        Atom::Const(constant) => is_symbol(symbol, constant),
        Atom::Var(_) => false,
    }
}

/// Whether the symbol is one of these.
pub fn is_among(symbols: &[Sym], symbol: Sym) -> bool
    ensures { result ≡ has_symbol symbols.now symbol }
{
    'symbols: for other in symbols {
        if is_symbol(symbol, *other) {
            return true;
        }
    }
    false
}

// ---- actions

#[tactic(auto, using(crate::proofs::ConstantLemmas::has_in_both))]
fn has_in_actions(actions: &[Action], symbol: Sym) -> bool
    ensures { result ≡ has_symbol (flat_map constants_of_action (map action_seen actions.now)) symbol }
{
    'actions: for action in actions {
        if has_in_action(action, symbol) {
            return true;
        }
    }
    false
}

#[tactic(auto, using(crate::proofs::ConstantLemmas::has_in_both, crate::proofs::ConstantLemmas::constants_of_all))]
fn has_in_action(action: &Action, symbol: Sym) -> bool
    ensures { result ≡ has_symbol (constants_of_action (action_seen action.now)) symbol }
{
    match action {
        Action::Make {
            id,
            attr,
            value,
            pref,
        } => {
            is_constant(*id, symbol)
                || has_in_value(attr, symbol)
                || has_in_value(value, symbol)
                || has_in_referent(pref, symbol)
        }
        Action::Write(values) => has_in_values(values.as_slice(), symbol),
        Action::Halt => false,
    }
}

fn has_in_referent(pref: &Pref, symbol: Sym) -> bool
    ensures { result ≡ has_symbol (constants_of_referent (referent_value (preference_seen pref.now))) symbol }
{
    match pref.referent() {
        Some(value) => has_in_value(value, symbol),
        None => false,
    }
}

#[cycle(values)]
fn has_in_value(value: &Value, symbol: Sym) -> bool
    ensures { result ≡ has_symbol (constants_of_value (value_seen value.now)) symbol }
{
    match value {
        Value::Atom(atom) => is_constant(*atom, symbol),
        Value::Call(_, values) => has_in_values(values.as_slice(), symbol),
    }
}

#[cycle(values)]
#[tactic(auto, using(crate::proofs::ConstantLemmas::has_in_both))]
fn has_in_values(values: &[Value], symbol: Sym) -> bool
    ensures { result ≡ has_symbol (constants_of_values (values_of (map value_seen values.now))) symbol }
{
    'values: for value in values {
        if has_in_value(value, symbol) {
            return true;
        }
    }
    false
}
