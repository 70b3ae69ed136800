// Which instances may fire, at any level, where no live firing has them.
ghost use Rattle.std.specs.Prelude.{◌≡◌, map, filter, length, IfOk};
ghost use Rattle.soar_rule.specs.Variables.{bound_variables};
ghost use Rattle.defs_match.specs.Rules.{rule_seen};
ghost use Rattle.defs_soar.specs.Pending.{firable_of, is_justification};
ghost use Rattle.pending_work.specs.Firables.{AreBound, IsInstance};
ghost use Rattle.pending_work.specs.Open.{can_fire, can_fire_now};

use defs_match::{Instance, Rule};
use defs_soar::Goal;
use rule_shelf::Rules;
use soar_levels::operator_kind;
use soar_rule::Kind;
use soar_sym::{List, NoMemory};
use soar_wm::Memory;
use std::alloc::Global;

/// The instances among these that may fire, in order.
pub fn ready(
    alloc: Global,
    proposing: bool,
    rules: &Rules,
    memory: &Memory,
    goals: &List<Goal>,
    unfired: List<Instance>,
) -> Result<List<Instance>, NoMemory>
    requires bound { AreBound (map rule_seen rules.now) unfired }
    ensures { IfOk result (λ ready. ready ≡ filter (can_fire_now proposing (map rule_seen rules.now) memory.now.elements goals.now) unfired) }
{
    let mut ready = List::from_vec(Vec::with_capacity(alloc, unfired.len())?);
    'unfired: for instance in unfired.into_vec() {
        if can_fire_now(proposing, rules, memory, goals, &instance) {
            ready.push(instance)?;
        }
    }
    Ok(ready)
}

/// Whether the instance may fire by its rule.
fn can_fire_now(
    proposing: bool,
    rules: &Rules,
    memory: &Memory,
    goals: &List<Goal>,
    instance: &Instance,
) -> bool
    requires bound { IsInstance (map rule_seen rules.now) instance.now }
    ensures { result ≡ can_fire_now proposing (map rule_seen rules.now) memory.now.elements goals.now instance.now }
{
    match rules.get(instance.rule) {
        Some(rule) => can_fire(proposing, rule, memory, goals, instance),
        None => false,
    }
}

/// The rule is no justification, and while proposing it is not of operator kind.
fn can_fire(
    proposing: bool,
    rule: &Rule,
    memory: &Memory,
    goals: &List<Goal>,
    instance: &Instance,
) -> bool
    requires binds { length instance.now.binds ≡ length (bound_variables (rule_seen rule.now).production.conditions) }
    ensures { result ≡ can_fire proposing goals.now (firable_of memory.now.elements (rule_seen rule.now) instance.now) }
{
    !is_justification(rule.production.kind)
        && !(proposing && operator_kind(rule, instance, goals, memory))
}

fn is_justification(kind: Kind) -> bool
    ensures { result ≡ is_justification kind }
{
    match kind {
        Kind::Justification => true,
        _ => false,
    }
}
