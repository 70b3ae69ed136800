// Actions behind a mark.
ghost use Rattle.std.specs.Prelude.{◌≡◌, map};
ghost use Rattle.body_marks.specs.Fingerprint.{after_action, after_each, after_referent, after_value, after_values};
ghost use Rattle.soar_rule.specs.Productions.{action_seen, preference_seen, value_seen, values_of};
ghost use Rattle.soar_rule.specs.Variables.{referent_value};

use crate::symbols::{after_atom, after_number};
use soar_rule::{Action, Pref, Value};

pub fn after_actions(actions: &[Action], mark: u64) -> u64
    ensures { result ≡ after_each after_action (map action_seen actions.now) mark }
{
    let mut last = mark;
    'actions: for action in actions {
        last = after_action(action, last);
    }
    last
}

fn after_action(action: &Action, mark: u64) -> u64
    ensures { result ≡ after_action (action_seen action.now) mark }
{
    match action {
        Action::Make {
            id,
            attr,
            value,
            pref,
        } => {
            let id = after_atom(*id, after_number(11, mark));
            let value = after_value(value, after_value(attr, id));
            after_referent(pref, value)
        }
        Action::Write(values) => after_values(values.as_slice(), after_number(12, mark)),
        Action::Halt => after_number(13, mark),
    }
}

fn after_referent(pref: &Pref, mark: u64) -> u64
    ensures { result ≡ after_referent (referent_value (preference_seen pref.now)) mark }
{
    match pref.referent() {
        Some(value) => after_value(value, mark),
        None => mark,
    }
}

#[cycle(values)]
fn after_values(values: &[Value], mark: u64) -> u64
    ensures { result ≡ after_values (values_of (map value_seen values.now)) mark }
{
    let mut last = mark;
    'values: for value in values {
        last = after_value(value, last);
    }
    last
}

#[cycle(values)]
fn after_value(value: &Value, mark: u64) -> u64
    ensures { result ≡ after_value (value_seen value.now) mark }
{
    match value {
        Value::Atom(atom) => after_atom(*atom, mark),
        Value::Call(_, arguments) => after_values(arguments.as_slice(), after_number(10, mark)),
    }
}
