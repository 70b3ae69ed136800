// How many conditions there are, and how deep negations and calls are in one another.
ghost use Rattle.std.specs.Prelude.{◌≡◌, map, nat_lt};
ghost use Rattle.soar_rule.specs.Checking.{told};
ghost use Rattle.soar_rule.specs.Conditions.{condition, conditions};
ghost use Rattle.soar_rule.specs.Productions.{action_seen, preference_seen, value_seen, values_of};
ghost use Rattle.soar_rule.specs.Sizes.{calls_in, calls_in_all, calls_of, calls_of_referent, depth_of, depth_of_all, size_of, size_of_all};
ghost use Rattle.soar_rule.specs.Variables.{referent_value};

use soar_rule::{Action, Cond, Pref, Value};

/// A number, or 2^32 - 1 where it is greater.
pub fn told(number: usize) -> u32
    ensures { result ≡ told number }
{
    number.min(u32::MAX as usize) as u32
}

/// How many conditions there are, or 2^32 - 1 where there are more.
#[cycle(sizes)]
#[tactic(auto, using(crate::proofs::SizeLemmas::told_sum))]
pub fn size_of_all(conds: &[Cond]) -> u32
    ensures { result ≡ told (size_of_all (conditions conds.now)) }
{
    let mut size: u32 = 0;
    'conds: for cond in conds {
        size = size.saturating_add(size_of(cond));
    }
    size
}

#[cycle(sizes)]
fn size_of(cond: &Cond) -> u32
    ensures { result ≡ told (size_of (condition cond.now)) }
{
    match cond {
        Cond::Pos(_) => 1,
        Cond::Neg(_) => 1,
        Cond::Conj(inside) => size_of_all(inside.as_slice()).saturating_add(1),
    }
}

/// Whether negations are more than so many deep in one another.
#[cycle(negations)]
#[tactic(auto, using(crate::proofs::SizeLemmas::deeper_of_two))]
pub fn are_deeper(conds: &[Cond], limit: usize) -> bool
    ensures { result ≡ nat_lt limit (depth_of_all (conditions conds.now)) }
{
    'conds: for cond in conds {
        if is_deeper(cond, limit) {
            return true;
        }
    }
    false
}

#[cycle(negations)]
fn is_deeper(cond: &Cond, limit: usize) -> bool
    ensures { result ≡ nat_lt limit (depth_of (condition cond.now)) }
{
    match cond {
        Cond::Pos(_) => false,
        Cond::Neg(_) => limit == 0,
        Cond::Conj(inside) => limit == 0 || are_deeper(inside.as_slice(), limit - 1),
    }
}

/// Whether an action has calls more than so many deep in one another.
#[tactic(auto, using(crate::proofs::SizeLemmas::deeper_of_two, crate::proofs::SizeLemmas::deepest_is))]
pub fn has_deeper_calls(action: &Action, limit: usize) -> bool
    ensures { result ≡ nat_lt limit (calls_of (action_seen action.now)) }
{
    match action {
        Action::Make {
            id: _,
            attr,
            value,
            pref,
        } => {
            calls_deeper(attr, limit)
                || calls_deeper(value, limit)
                || referent_calls_deeper(pref, limit)
        }
        Action::Write(values) => any_calls_deeper(values.as_slice(), limit),
        Action::Halt => false,
    }
}

fn referent_calls_deeper(pref: &Pref, limit: usize) -> bool
    ensures { result ≡ nat_lt limit (calls_of_referent (referent_value (preference_seen pref.now))) }
{
    match pref.referent() {
        Some(value) => calls_deeper(value, limit),
        None => false,
    }
}

#[cycle(calls)]
#[tactic(auto, using(crate::proofs::SizeLemmas::deeper_of_two))]
fn any_calls_deeper(values: &[Value], limit: usize) -> bool
    ensures { result ≡ nat_lt limit (calls_in_all (values_of (map value_seen values.now))) }
{
    'values: for value in values {
        if calls_deeper(value, limit) {
            return true;
        }
    }
    false
}

#[cycle(calls)]
fn calls_deeper(value: &Value, limit: usize) -> bool
    ensures { result ≡ nat_lt limit (calls_in (value_seen value.now)) }
{
    match value {
        Value::Atom(_) => false,
        Value::Call(_, values) => limit == 0 || any_calls_deeper(values.as_slice(), limit - 1),
    }
}
