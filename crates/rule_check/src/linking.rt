// The variables that actions link, step by step, to the bound ones.
ghost use Rattle.std.specs.Prelude.{◌≡◌, ◌++◌, false, List as ListOf, [], ◌∷◌, ℕ, map, IfOk, OnOk};
ghost use Rattle.soar_rule.specs.Checking.{linked_by, linked_by_all, linked_variables, lone_variable};
ghost use Rattle.soar_rule.specs.Productions.{action_seen, preference_seen, value_seen};
ghost use Rattle.soar_rule.specs.Variables.{of_referent, referent_value};
ghost use Rattle.rule_check.specs.Marking.{AreMarked, Joined};

use crate::marks::Marks;
use soar_rule::{Action, Atom, Pref, Value};
use soar_sym::NoMemory;
use std::alloc::Global;

/// The bound variables, and those that actions link to them.
pub fn linked_variables(alloc: Global, actions: &[Action], bound: &Marks) -> Result<Marks, NoMemory>
    ensures { IfOk result (λ linked. (known : ListOf ℕ) → AreMarked bound.now.marks known → AreMarked linked.marks (linked_variables known (map action_seen actions.now))) }
{
    let mut linked = bound.copy(alloc)?;
    'rounds: for _ in actions {
        if !link_all(actions, &mut linked)? {
            return Ok(linked);
        }
    }
    Ok(linked)
}

/// Joins what each action links, one after another, and tells whether a variable is new.
fn link_all(actions: &[Action], linked: &mut Marks) -> Result<bool, NoMemory>
    ensures joined { OnOk result ((known : ListOf ℕ) → AreMarked linked.old.marks known → AreMarked linked.new.marks (linked_by_all (map action_seen actions.now) known)) }
    ensures same { IfOk result (λ is_new. is_new ≡ false → linked.new ≡ linked.old) }
{
    let mut is_new = false;
    'actions: for action in actions {
        if link(action, linked)? {
            is_new = true;
        }
    }
    Ok(is_new)
}

/// Joins what an action links, and tells whether a variable is new.
fn link(action: &Action, linked: &mut Marks) -> Result<bool, NoMemory>
    ensures joined { OnOk result ((known : ListOf ℕ) → AreMarked linked.old.marks known → AreMarked linked.new.marks (linked_by known (action_seen action.now))) }
    ensures same { IfOk result (λ is_new. is_new ≡ false → linked.new ≡ linked.old) }
{
    match action {
        Action::Make {
            id: Atom::Var(id),
            attr: _,
            value,
            pref,
        } if linked.has(*id) => link_to(value, pref, linked),
        _ => Ok(false),
    }
}

/// Joins a value and a referent that are variables, and tells whether one is new.
fn link_to(value: &Value, pref: &Pref, linked: &mut Marks) -> Result<bool, NoMemory>
    ensures joined { OnOk result (Joined linked.old.marks linked.new.marks (lone_variable (value_seen value.now) ++ of_referent lone_variable (referent_value (preference_seen pref.now)))) }
    ensures same { IfOk result (λ is_new. is_new ≡ false → linked.new ≡ linked.old) }
{
    let is_new_value = join_lone(value, linked)?;
    let is_new_referent = join_referent(pref, linked)?;
    Ok(is_new_value || is_new_referent)
}

fn join_referent(pref: &Pref, marks: &mut Marks) -> Result<bool, NoMemory>
    ensures joined { OnOk result (Joined marks.old.marks marks.new.marks (of_referent lone_variable (referent_value (preference_seen pref.now)))) }
    ensures same { IfOk result (λ is_new. is_new ≡ false → marks.new ≡ marks.old) }
{
    match pref.referent() {
        Some(value) => join_lone(value, marks),
        None => Ok(false),
    }
}

/// Joins a value that is a variable; those inside a call count for nothing.
fn join_lone(value: &Value, marks: &mut Marks) -> Result<bool, NoMemory>
    ensures joined { OnOk result (Joined marks.old.marks marks.new.marks (lone_variable (value_seen value.now))) }
    ensures same { IfOk result (λ is_new. is_new ≡ false → marks.new ≡ marks.old) }
{
    match value {
        Value::Atom(Atom::Var(number)) => join_new(*number, marks),
        _ => Ok(false),
    }
}

/// Joins a variable, and tells whether it is new.
fn join_new(number: u32, marks: &mut Marks) -> Result<bool, NoMemory>
    ensures joined { OnOk result (Joined marks.old.marks marks.new.marks (number ∷ [])) }
    ensures same { IfOk result (λ is_new. is_new ≡ false → marks.new ≡ marks.old) }
{
    if marks.has(number) {
        return Ok(false);
    }
    marks.join(number)?;
    Ok(true)
}
