ghost use Rattle.std.specs.Prelude.{◌≡◌, ◌≤◌, length, option_map, slice_get, IfOk};
ghost use Rattle.soar_rule.specs.Variables.{bound_variables};
ghost use Rattle.defs_match.specs.Rules.{rule_seen};
ghost use Rattle.defs_soar.specs.History.{firing_seen};
ghost use Rattle.defs_soar.specs.Support.{goal_at_depth};
ghost use Rattle.firing_records.specs.Recorded.{firing_as, recorded_as, recorded_seen, standing};

use crate::before::Before;
use crate::outcome::Recorded;
use crate::uses::all_uses;
use defs_match::{Instance, Rule};
use defs_soar::{Firing, Goal, Wish};
use shared_values::Shared;
use soar_levels::{match_depth, operator_kind};
use soar_sym::{List, NoMemory, Sym};
use std::alloc::{AllocError, Global};

/// Records a firing of a rule for an instance. The goals among its symbols and what it made are given.
pub fn recorded(
    before: &Before<'_>,
    rule: &Rule,
    instance: &Instance,
    number: u64,
    goals: List<Sym>,
    made: &[Wish],
) -> Result<Recorded, NoMemory>
    requires binds { length instance.now.binds ≡ length (bound_variables (rule_seen rule.now).production.conditions) }
    requires few { length before.now.goals.now ≤ 100 }
    ensures { IfOk result (λ r. recorded_seen r ≡ recorded_as goals (standing before.now) (rule_seen rule.now) instance.now number made.now) }
{
    let tags = instance.tags.as_slice();
    let depth = match_depth(before.goals.as_slice(), before.memory, tags);
    let firing = firing_of(before, depth, rule, instance, number, goals, made)?;
    Ok(Recorded {
        firing: Shared::new(before.alloc, firing)?,
        goal: goal_at_depth(before.goals.as_slice(), depth),
        operator_kind: operator_kind(rule, instance, before.goals, before.memory),
    })
}

fn firing_of(
    before: &Before<'_>,
    depth: usize,
    rule: &Rule,
    instance: &Instance,
    number: u64,
    goals: List<Sym>,
    made: &[Wish],
) -> Result<Firing, NoMemory>
    requires few { depth ≤ 100 }
    ensures { IfOk result (λ firing. firing_seen firing ≡ firing_as (standing before.now) depth (rule_seen rule.now) instance.now number goals made.now) }
{
    Ok(Firing {
        number,
        name: rule.production.name,
        rule: rule.share()?,
        depth: depth as u32,
        instance: copy_of(before.alloc, instance)?,
        goals,
        used: all_uses(before, depth, instance.tags.as_slice())?,
        made: List::from_slice(before.alloc, made)?,
    })
}

fn copy_of(alloc: Global, instance: &Instance) -> Result<Instance, AllocError>
    ensures { IfOk result (λ copy. copy ≡ instance.now) }
{
    Ok(Instance {
        rule: instance.rule,
        tags: List::from_slice(alloc, instance.tags.as_slice())?,
        binds: List::from_slice(alloc, instance.binds.as_slice())?,
    })
}

/// The goal of a depth, from 1 for the top goal.
fn goal_at_depth(goals: &[Goal], depth: usize) -> Option<Sym>
    ensures { result ≡ goal_at_depth depth goals.now }
{
    if depth == 0 {
        return None;
    }
    id_at(goals, depth - 1)
}

fn id_at(goals: &[Goal], place: usize) -> Option<Sym>
    ensures { result ≡ option_map (λ goal. goal.id) (slice_get goals.now place) }
{
    if place >= goals.len() {
        return None;
    }
    Some(goals[place].id)
}
