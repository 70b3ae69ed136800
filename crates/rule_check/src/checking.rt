// Whether a production can be matched, and its conditions in match order.
ghost use Rattle.std.specs.Prelude.{◌≡◌, ◌||◌, [], ◌∷◌, IfOk, IsTrue, List as ListOf, ℕ, length, map, nat_lt, not, option_map};
ghost use Rattle.std.specs.List.{list_any};
ghost use Rattle.soar_rule.specs.Below.{conds_below};
ghost use Rattle.soar_rule.specs.Checked.{IsChecked};
ghost use Rattle.soar_rule.specs.Checking.{bad_preference, fault_if, fault_of, fault_of_actions, fault_of_number, has_state, is_bad, is_ordinary_attribute, is_ordinary_preference, no_state, stop_of, too_deep};
ghost use Rattle.soar_rule.specs.Conditions.{conditions};
ghost use Rattle.soar_rule.specs.MatchOrder.{taken_in_order};
ghost use Rattle.soar_rule.specs.Productions.{action_seen, preference_seen, production_seen, value_seen};
ghost use Rattle.soar_rule.specs.Sizes.{calls_of, depth_of_all, size_of_all};
ghost use Rattle.rule_check.specs.Marking.{AreMarked};
ghost use Rattle.rule_check.specs.Stops.{stop_seen};
ghost use Rattle.rule_check.specs.Telling.{Tells};

use crate::level::Left;
use crate::linking::linked_variables;
use crate::marks::Marks;
use crate::order::take_in_order;
use crate::sizes::{are_deeper, has_deeper_calls, size_of_all, told};
use crate::taking::InOrder;
use crate::unbound::first_unbound;
use soar_rule::{Action, Atom, CheckFault, Cond, Pref, Production, Value};
use soar_sym::architecture::OPERATOR;
use soar_sym::{List, NoMemory, is_symbol};
use std::alloc::Global;

const MOST_CONDITIONS: u32 = 1000;

const MOST_VARIABLES: usize = 2000;

const GREATEST_DEPTH: usize = 8;

/// The production with its conditions in match order, those inside negations too, or its first fault.
///
/// Conditions are taken one by one, each time the first that is ready. A positive one is ready once it is
/// marked `state` or its identifier is bound, and each variable of its relations is bound or stands as a plain
/// test in the same field or an earlier one. A negation is ready once each of its variables that a positive
/// condition outside binds is bound, and its inside can be ordered; inside, no identifier need be bound.
///
/// Faults are told in the order of `CheckFault`. The order and the limits are this engine's.
pub fn check(alloc: Global, production: &Production) -> Result<Production, CheckFault>
    ensures { IsChecked (production_seen production.now) result }
{
    let taken = take_in_order(alloc, production.conds.as_slice(), production.vars.len())?;
    check_all(alloc, production, &taken)?;
    Ok(production.with_conds(taken.conds, alloc)?)
}

// ---- faults, in the order in which they are told

fn check_all(alloc: Global, production: &Production, taken: &InOrder) -> Result<(), CheckFault>
    requires bound { AreMarked taken.now.bound.marks (taken_in_order (conditions production.now.conds)).bound }
    requires stop { stop_seen taken.now.left ≡ stop_of (conditions production.now.conds) (taken_in_order (conditions production.now.conds)) }
    ensures { Tells (fault_of (production_seen production.now) (taken_in_order (conditions production.now.conds))) result }
{
    let conds = production.conds.as_slice();
    let actions = production.actions.as_slice();
    check_state(conds)?;
    check_order(taken.left)?;
    check_bound(alloc, actions, &taken.bound)?;
    check_number(conds, production.vars.len())?;
    check_depth(conds, actions)?;
    check_preferences(actions)
}

fn check_state(conds: &[Cond]) -> Result<(), CheckFault>
    ensures { Tells (fault_if (not (has_state (conditions conds.now))) no_state) result }
{
    if !has_state(conds) {
        return Err(CheckFault::NoState);
    }
    Ok(())
}

fn has_state(conds: &[Cond]) -> bool
    ensures { result ≡ has_state (conditions conds.now) }
{
    'conds: for cond in conds {
        if is_of_state(cond) {
            return true;
        }
    }
    false
}

fn is_of_state(cond: &Cond) -> bool
    ensures { result ≡ has_state (conditions (cond.now ∷ [])) }
{
    match cond {
        Cond::Pos(pattern) => pattern.state,
        _ => false,
    }
}

/// Tells what a positive condition lacks, where one stands, or what a negation lacks.
fn check_order(left: Left) -> Result<(), CheckFault>
    ensures { Tells (stop_seen left) result }
{
    if let Some(number) = left.positive {
        return Err(CheckFault::Unbound(number));
    }
    if let Some(place) = left.place {
        return Err(CheckFault::Unconnected(told(place)));
    }
    match left.negation {
        Some(number) => Err(CheckFault::Unbound(number)),
        None => Ok(()),
    }
}

fn check_bound(alloc: Global, actions: &[Action], bound: &Marks) -> Result<(), CheckFault>
    ensures { (known : ListOf ℕ) → AreMarked bound.now.marks known → Tells (fault_of_actions known (map action_seen actions.now)) result }
{
    let linked = linked_variables(alloc, actions, bound)?;
    match first_unbound(actions, bound, &linked) {
        None => Ok(()),
        Some(number) => Err(CheckFault::Unbound(number)),
    }
}

fn check_number(conds: &[Cond], variables: usize) -> Result<(), CheckFault>
    ensures { Tells (fault_of_number (size_of_all (conditions conds.now)) variables) result }
{
    let size = size_of_all(conds);
    if size > MOST_CONDITIONS {
        return Err(CheckFault::TooMany(size));
    }
    if variables > MOST_VARIABLES {
        return Err(CheckFault::TooMany(told(variables)));
    }
    Ok(())
}

fn check_depth(conds: &[Cond], actions: &[Action]) -> Result<(), CheckFault>
    ensures { Tells (fault_if (nat_lt 8 (depth_of_all (conditions conds.now)) || list_any (λ a. nat_lt 8 (calls_of a)) (map action_seen actions.now)) too_deep) result }
{
    if are_deeper(conds, GREATEST_DEPTH) || any_deeper_calls(actions) {
        return Err(CheckFault::TooDeep);
    }
    Ok(())
}

fn any_deeper_calls(actions: &[Action]) -> bool
    ensures { result ≡ list_any (λ a. nat_lt 8 (calls_of a)) (map action_seen actions.now) }
{
    'actions: for action in actions {
        if has_deeper_calls(action, GREATEST_DEPTH) {
            return true;
        }
    }
    false
}

fn check_preferences(actions: &[Action]) -> Result<(), CheckFault>
    ensures { Tells (fault_if (list_any is_bad (map action_seen actions.now)) bad_preference) result }
{
    'actions: for action in actions {
        if is_bad(action) {
            return Err(CheckFault::BadPref);
        }
    }
    Ok(())
}

fn is_bad(action: &Action) -> bool
    ensures { result ≡ is_bad (action_seen action.now) }
{
    match action {
        Action::Make {
            id: _,
            attr,
            value: _,
            pref,
        } => is_ordinary_attribute(attr) && !is_ordinary_preference(pref),
        _ => false,
    }
}

/// Whether an attribute is a constant other than `operator`.
fn is_ordinary_attribute(attr: &Value) -> bool
    ensures { result ≡ is_ordinary_attribute (value_seen attr.now) }
{
    match attr {
        Value::Atom(Atom::Const(symbol)) => !is_symbol(*symbol, OPERATOR),
        _ => false,
    }
}

fn is_ordinary_preference(pref: &Pref) -> bool
    ensures { result ≡ is_ordinary_preference (preference_seen pref.now) }
{
    match pref {
        Pref::Accept => true,
        Pref::Reject => true,
        _ => false,
    }
}
