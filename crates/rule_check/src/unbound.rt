// The first variable of actions that has to be bound and is not.
ghost use Rattle.std.specs.Prelude.{◌≡◌, ◌++◌, List as ListOf, ℕ, map};
ghost use Rattle.soar_rule.specs.Checking.{called_variables, first_unbound, unbound_in};
ghost use Rattle.soar_rule.specs.Productions.{action_seen, preference_seen, value_seen, values_of};
ghost use Rattle.soar_rule.specs.Variables.{of_referent, referent_value, variables_of_atom, variables_of_value, variables_of_values};
ghost use Rattle.rule_check.specs.Marking.{AreMarked};
ghost use Rattle.rule_check.specs.Unmarked.{first_unmarked};

use crate::marks::Marks;
use soar_rule::{Action, Atom, Pref, Value};

/// The first variable of actions that is not bound, or not linked where it is an identifier.
pub fn first_unbound(actions: &[Action], bound: &Marks, linked: &Marks) -> Option<u32>
    ensures { (known new : ListOf ℕ) → AreMarked bound.now.marks known → AreMarked linked.now.marks new → result ≡ first_unbound known new (map action_seen actions.now) }
{
    'actions: for action in actions {
        if let Some(number) = unbound_in(action, bound, linked) {
            return Some(number);
        }
    }
    None
}

#[tactic(auto, using(crate::proofs::UnmarkedLemmas::first_unmarked_is, crate::proofs::UnmarkedLemmas::variables_of_list))]
fn unbound_in(action: &Action, bound: &Marks, linked: &Marks) -> Option<u32>
    ensures { (known new : ListOf ℕ) → AreMarked bound.now.marks known → AreMarked linked.now.marks new → result ≡ unbound_in known new (action_seen action.now) }
{
    match action {
        Action::Make {
            id,
            attr,
            value,
            pref,
        } => {
            let unmarked = unmarked_in_atom(*id, linked);
            if unmarked.is_some() {
                return unmarked;
            }
            unmarked_beside(attr, value, pref, bound)
        }
        Action::Write(values) => unmarked_in_values(values.as_slice(), bound),
        Action::Halt => None,
    }
}

/// The first without a mark in an action beside its identifier.
#[tactic(auto, using(crate::proofs::UnmarkedLemmas::first_unmarked_joined))]
fn unmarked_beside(attr: &Value, value: &Value, pref: &Pref, marks: &Marks) -> Option<u32>
    ensures { result ≡ first_unmarked marks.now.marks (variables_of_value (value_seen attr.now) ++ (called_variables (value_seen value.now) ++ of_referent called_variables (referent_value (preference_seen pref.now)))) }
{
    let unmarked = unmarked_in_value(attr, marks);
    if unmarked.is_some() {
        return unmarked;
    }
    let unmarked = unmarked_in_calls(value, marks);
    if unmarked.is_some() {
        return unmarked;
    }
    unmarked_in_referent(pref, marks)
}

fn unmarked_in_atom(atom: Atom, marks: &Marks) -> Option<u32>
    ensures { result ≡ first_unmarked marks.now.marks (variables_of_atom atom) }
{
    match atom {
        Atom::Const(_) => None,
        Atom::Var(number) if marks.has(number) => None,
        Atom::Var(number) => Some(number),
    }
}

/// The first without a mark in the calls of a value; one that is the value counts for nothing.
fn unmarked_in_calls(value: &Value, marks: &Marks) -> Option<u32>
    ensures { result ≡ first_unmarked marks.now.marks (called_variables (value_seen value.now)) }
{
    match value {
        Value::Atom(_) => None,
        Value::Call(_, values) => unmarked_in_values(values.as_slice(), marks),
    }
}

fn unmarked_in_referent(pref: &Pref, marks: &Marks) -> Option<u32>
    ensures { result ≡ first_unmarked marks.now.marks (of_referent called_variables (referent_value (preference_seen pref.now))) }
{
    match pref.referent() {
        Some(value) => unmarked_in_calls(value, marks),
        None => None,
    }
}

#[cycle(variables)]
fn unmarked_in_value(value: &Value, marks: &Marks) -> Option<u32>
    ensures { result ≡ first_unmarked marks.now.marks (variables_of_value (value_seen value.now)) }
{
    match value {
        Value::Atom(atom) => unmarked_in_atom(*atom, marks),
        Value::Call(_, values) => unmarked_in_values(values.as_slice(), marks),
    }
}

#[cycle(variables)]
#[tactic(auto, using(crate::proofs::UnmarkedLemmas::first_unmarked_joined))]
fn unmarked_in_values(values: &[Value], marks: &Marks) -> Option<u32>
    ensures { result ≡ first_unmarked marks.now.marks (variables_of_values (values_of (map value_seen values.now))) }
{
    'values: for value in values {
        if let Some(number) = unmarked_in_value(value, marks) {
            return Some(number);
        }
    }
    None
}
