// Actions, compared part by part.
ghost use Rattle.std.specs.Prelude.{◌≡◌};
ghost use Rattle.std.specs.Option.{option_copied, option_map};
ghost use Rattle.soar_rule.specs.Equality.{action_eq, atom_eq, function_place, list_eq, preference_eq, value_eq};
ghost use Rattle.soar_rule.specs.Productions.{action_seen, preference_seen, value_seen};
ghost use Rattle.chunk_learn.specs.Seen.{referent_eq, preference_place, seen_action_eq, seen_value_eq};

use soar_rule::{Action, Atom, Func, Pref, Value};
use soar_sym::is_symbol;

#[tactic(auto, using(crate::proofs::BodyLemmas::at_end, crate::proofs::BodyLemmas::one_short))]
pub fn same_actions(a: &[Action], b: &[Action]) -> bool
    ensures { result ≡ list_eq seen_action_eq a.now b.now }
{
    let mut rest = b;
    'actions: for action in a {
        match rest.split_first() {
            Some((other, behind)) => {
                if !same_action(action, other) {
                    return false;
                }
                rest = behind;
            }
            None => return false,
        }
    }
    rest.is_empty()
}

#[tactic(auto, using(crate::proofs::BodyLemmas::written_are))]
fn same_action(a: &Action, b: &Action) -> bool
    ensures { result ≡ action_eq (action_seen a.now) (action_seen b.now) }
{
    match (a, b) {
        (
            Action::Make {
                id,
                attr,
                value,
                pref,
            },
            Action::Make {
                id: other_id,
                attr: other_attr,
                value: other_value,
                pref: other_pref,
            },
        ) => {
            same_atom(*id, *other_id)
                && same_value(attr, other_attr)
                && same_value(value, other_value)
                && same_preference(pref, other_pref)
        }
        (Action::Write(values), Action::Write(others)) => {
            same_values(values.as_slice(), others.as_slice())
        }
        (Action::Halt, Action::Halt) => true,
        _ => false,
    }
}

#[tactic(auto, using(crate::proofs::PreferenceLemmas::by_place))]
fn same_preference(a: &Pref, b: &Pref) -> bool
    ensures { result ≡ preference_eq (preference_seen a.now) (preference_seen b.now) }
{
    preference_place(a) == preference_place(b) && same_referent(a.referent(), b.referent())
}

fn preference_place(pref: &Pref) -> u8
    ensures { result ≡ preference_place (preference_seen pref.now) }
{
    match pref {
        Pref::Accept => 0,
        Pref::Reject => 1,
        Pref::Require => 2,
        Pref::Prohibit => 3,
        Pref::Best => 4,
        Pref::Worst => 5,
        Pref::Indifferent => 6,
        Pref::Better(_) => 7,
        Pref::Worse(_) => 8,
        Pref::IndifferentTo(_) => 9,
    }
}

fn same_referent(a: Option<&Value>, b: Option<&Value>) -> bool
    ensures { result ≡ referent_eq (option_map value_seen (option_copied a.entry)) (option_map value_seen (option_copied b.entry)) }
{
    match (a, b) {
        (Some(value), Some(other)) => same_value(value, other),
        (None, None) => true,
        _ => false,
    }
}

#[cycle(values)]
#[tactic(auto, using(crate::proofs::BodyLemmas::at_end, crate::proofs::BodyLemmas::one_short))]
fn same_values(a: &[Value], b: &[Value]) -> bool
    ensures { result ≡ list_eq seen_value_eq a.now b.now }
{
    let mut rest = b;
    'values: for value in a {
        match rest.split_first() {
            Some((other, behind)) => {
                if !same_value(value, other) {
                    return false;
                }
                rest = behind;
            }
            None => return false,
        }
    }
    rest.is_empty()
}

#[cycle(values)]
#[tactic(auto, using(crate::proofs::BodyLemmas::values_are))]
fn same_value(a: &Value, b: &Value) -> bool
    ensures { result ≡ value_eq (value_seen a.now) (value_seen b.now) }
{
    match (a, b) {
        (Value::Atom(atom), Value::Atom(other)) => same_atom(*atom, *other),
        (Value::Call(function, values), Value::Call(other, others)) => {
            function_place(*function) == function_place(*other)
                && same_values(values.as_slice(), others.as_slice())
        }
        _ => false,
    }
}

fn function_place(function: Func) -> u8
    ensures { result ≡ function_place function }
{
    match function {
        Func::Plus => 0,
        Func::Times => 1,
        Func::Minus => 2,
        Func::Div => 3,
        Func::Mod => 4,
        Func::Abs => 5,
        Func::Min => 6,
        Func::Max => 7,
        Func::Concat => 8,
        Func::IfEq => 9,
        Func::StrLen => 10,
        Func::Crlf => 11,
    }
}

fn same_atom(a: Atom, b: Atom) -> bool
    ensures { result ≡ atom_eq a b }
{
    match (a, b) {
        (Atom::Const(symbol), Atom::Const(other)) => is_symbol(symbol, other),
        (Atom::Var(variable), Atom::Var(other)) => variable == other,
        _ => false,
    }
}
