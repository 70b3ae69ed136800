// The actions of a rule that makes results.
ghost use Rattle.std.specs.Prelude.{◌≡◌, map, IfOk};
ghost use Rattle.defs_soar.specs.Candidate.{action_of, preference_of, referent_symbol, symbol_value, with_variables};
ghost use Rattle.soar_rule.specs.Productions.{action_seen, preference_seen, value_seen};
ghost use Rattle.soar_rule.specs.Renaming.{action_with, preference_with, value_with};

use crate::given::Given;
use condition_copies::Replaces;
use defs_soar::{PrefKind, Wish};
use soar_rule::{Action, Atom, Pref, Value};
use soar_sym::architecture::NIL;
use soar_sym::{List, NoMemory, Sym};
use std::alloc::Global;

/// An action for each result, with the variables that are given.
pub fn actions_of(
    alloc: Global,
    given: &Given<'_>,
    results: &[Wish],
) -> Result<List<Action>, NoMemory>
    ensures { IfOk result (λ actions. map action_seen actions ≡ map (λ w. action_with (with_variables given.now.general given.now.variables.now) (action_of w)) results.now) }
{
    let mut actions = List::new(alloc);
    'results: for wish in results {
        actions.push(action_of(given, wish))?;
    }
    Ok(actions)
}

fn action_of(given: &Given<'_>, wish: &Wish) -> Action
    ensures { action_seen result ≡ action_with (with_variables given.now.general given.now.variables.now) (action_of wish.now) }
{
    Action::Make {
        id: given.atom(Atom::Const(wish.id)),
        attr: value_of(given, wish.attr),
        value: value_of(given, wish.value),
        pref: preference_of(given, wish.kind, wish.referent),
    }
}

fn value_of(given: &Given<'_>, symbol: Sym) -> Value
    ensures { value_seen result ≡ value_with (with_variables given.now.general given.now.variables.now) (symbol_value symbol) }
{
    Value::Atom(given.atom(Atom::Const(symbol)))
}

fn preference_of(given: &Given<'_>, kind: PrefKind, referent: Option<Sym>) -> Pref
    ensures { preference_seen result ≡ preference_with (with_variables given.now.general given.now.variables.now) (preference_of kind referent) }
{
    match kind {
        PrefKind::Accept => Pref::Accept,
        PrefKind::Require => Pref::Require,
        PrefKind::Reject => Pref::Reject,
        PrefKind::Prohibit => Pref::Prohibit,
        PrefKind::Better => Pref::Better(referent_of(given, referent)),
        PrefKind::Worse => Pref::Worse(referent_of(given, referent)),
        PrefKind::Best => Pref::Best,
        PrefKind::Worst => Pref::Worst,
        PrefKind::Indifferent => Pref::Indifferent,
        PrefKind::Numeric => Pref::IndifferentTo(referent_of(given, referent)),
        PrefKind::IndifferentTo => Pref::IndifferentTo(referent_of(given, referent)),
    }
}

/// A referent. Where there is none the word nil stands for it.
fn referent_of(given: &Given<'_>, referent: Option<Sym>) -> Value
    ensures { value_seen result ≡ value_with (with_variables given.now.general given.now.variables.now) (referent_symbol referent) }
{
    match referent {
        Some(symbol) => value_of(given, symbol),
        None => value_of(given, NIL),
    }
}
