// Firings in turn, each under its number.
ghost use Rattle.std.specs.Prelude.{◌≡◌, ◌≤◌, ◌+◌, ◌-◌, ◌^◌, length, map, IfErr, IfOk, OnErr, OnOk};
ghost use Rattle.soar_rule.specs.Symbols.{AreKnown};
ghost use Rattle.soar_rule.specs.Variables.{bound_variables};
ghost use Rattle.soar_fire.specs.Fires.{AreWishesKnown, IsFirable, made_of};
ghost use Rattle.soar_fire.specs.Growth.{Grown, LettersKeep, OnlyGains};
ghost use Rattle.defs_match.specs.Rules.{rule_seen};
ghost use Rattle.defs_soar.specs.Pending.{firable_of};
ghost use Rattle.pending_work.specs.Firables.{firables_for, AreBound, IsInstance};
ghost use Rattle.firing_records.specs.Recorded.{standing};
ghost use Rattle.wave_firings.specs.FiringOutcome.{firing_outcome, gathered, instances_outcome, Leaves, LeavesOne, Makes, KnowsEntries, KnowsGoals, KnowsInstances, KnowsRules};
ghost use Rattle.wave_entries.specs.Entries.{entry_seen};
ghost use Rattle.wave_firings.specs.Held.{against};

use crate::firing::Fired;
use crate::gathering::gather;
use crate::scene::Scene;
use defs_match::{Instance, Rule};
use defs_soar::{Made, Which};
use firing_records::goals_of;
use soar_fire::{FireFault, fire};
use soar_settle::Stop;
use soar_sym::{Letters, NoMemory, SymTable};

/// Fires the instances in turn, numbered from the one after `last` on.
pub fn fire_each(
    scene: &Scene<'_>,
    instances: &[Instance],
    last: u64,
    table: &mut SymTable,
    letters: &mut Letters,
    fired: &mut Fired,
) -> Result<(), Stop>
    requires bound { AreBound (map rule_seen scene.now.rules.now) instances.now }
    requires rules { KnowsRules table.old (map rule_seen scene.now.rules.now) }
    requires goals { KnowsGoals table.old scene.now.before.now.goals.now }
    requires instances { KnowsInstances table.old instances.now }
    requires entries { KnowsEntries table.old (map entry_seen fired.old.entries) }
    ensures answer { Leaves
        (instances_outcome (against (standing scene.now.before.now)) (map rule_seen scene.now.rules.now) instances.now
        (gathered table.old letters.old last fired.old))
        (gathered table.new letters.new (last + length instances.now) fired.new) result }
    ensures entries { OnOk result (KnowsEntries table.new (map entry_seen fired.new.entries)) }
    ensures gains { OnlyGains table.old letters.old table.new letters.new }
{
    let mut number = last;
    'instances: for instance in instances {
        number = next_number(number)?;
        fire_one(scene, instance, number, table, letters, fired)?;
    }
    Ok(())
}

/// The next number, where the counts have one.
fn next_number(last: u64) -> Result<u64, Stop>
    ensures next { IfOk result (λ next. next ≡ last + 1) }
    ensures within { IfOk result (λ next. next ≤ 2 ^ 64 - 1) }
    ensures limit { IfErr result (λ e. e ≡ Stop.Limit Which.Counts) }
    ensures spent { OnErr result (last ≡ 2 ^ 64 - 1) }
{
    match last.checked_add(1) {
        Some(next) => Ok(next),
        None => Err(Stop::Limit(Which::Counts)),
    }
}

/// Fires an instance under a number, by the rule that it is of.
fn fire_one(
    scene: &Scene<'_>,
    instance: &Instance,
    number: u64,
    table: &mut SymTable,
    letters: &mut Letters,
    fired: &mut Fired,
) -> Result<(), Stop>
    requires bound { IsInstance (map rule_seen scene.now.rules.now) instance.now }
    requires rules { KnowsRules table.old (map rule_seen scene.now.rules.now) }
    requires goals { KnowsGoals table.old scene.now.before.now.goals.now }
    requires known { AreKnown table.old instance.now.binds }
    requires entries { KnowsEntries table.old (map entry_seen fired.old.entries) }
    ensures answer { LeavesOne (against (standing scene.now.before.now)) number (gathered table.old letters.old number fired.old)
        (firables_for (map rule_seen scene.now.rules.now) scene.now.before.now.memory.now.elements instance.now)
        (gathered table.new letters.new number fired.new) result }
    ensures entries { OnOk result (KnowsEntries table.new (map entry_seen fired.new.entries)) }
    ensures words { Grown table.old table.new }
    ensures letters { LettersKeep letters.old letters.new }
{
    match scene.rules.get(instance.rule) {
        Some(rule) => fire_rule(scene, rule, instance, number, table, letters, fired),
        None => unreachable!(),
    }
}

/// Fires a rule for an instance of it, and gathers what that makes. The goals among its symbols are found by the words
/// before it.
fn fire_rule(
    scene: &Scene<'_>,
    rule: &Rule,
    instance: &Instance,
    number: u64,
    table: &mut SymTable,
    letters: &mut Letters,
    fired: &mut Fired,
) -> Result<(), Stop>
    requires binds { length instance.now.binds ≡ length (bound_variables (rule_seen rule.now).production.conditions) }
    requires known { IsFirable table.old (rule_seen rule.now) instance.now }
    requires goals { KnowsGoals table.old scene.now.before.now.goals.now }
    requires entries { KnowsEntries table.old (map entry_seen fired.old.entries) }
    ensures answer { Leaves
        (firing_outcome (against (standing scene.now.before.now)) number (gathered table.old letters.old number fired.old)
        (firable_of scene.now.before.now.memory.now.elements (rule_seen rule.now) instance.now))
        (gathered table.new letters.new number fired.new) result }
    ensures entries { OnOk result (KnowsEntries table.new (map entry_seen fired.new.entries)) }
    ensures words { Grown table.old table.new }
    ensures letters { LettersKeep letters.old letters.new }
{
    let goals = goals_of(scene.alloc, table, scene.before.goals, rule, instance)?;
    let made = made_by(scene, rule, instance, table, letters)?;
    match gather(scene, rule, instance, number, goals, &made, fired) {
        Ok(()) => Ok(()),
        Err(NoMemory) => Err(Stop::NoMemory),
    }
}

/// What the rule makes, or the limit that it would pass.
fn made_by(
    scene: &Scene<'_>,
    rule: &Rule,
    instance: &Instance,
    table: &mut SymTable,
    letters: &mut Letters,
) -> Result<Made, Stop>
    requires binds { length instance.now.binds ≡ length (bound_variables (rule_seen rule.now).production.conditions) }
    requires known { IsFirable table.old (rule_seen rule.now) instance.now }
    ensures answer { Makes table.new letters.new (made_of table.old letters.old scene.now.before.now.goals.now (rule_seen rule.now) instance.now) result }
    ensures known { IfOk result (λ made. AreWishesKnown table.new made.wishes) }
    ensures words { Grown table.old table.new }
    ensures letters { LettersKeep letters.old letters.new }
{
    match fire(
        scene.alloc,
        table,
        letters,
        scene.before.goals,
        rule,
        instance,
    ) {
        Ok(made) => Ok(made),
        Err(FireFault::IdsSpent) => Err(Stop::Limit(Which::Identifiers)),
        Err(FireFault::WordsSpent) => Err(Stop::Limit(Which::Words)),
        Err(FireFault::NoMemory) => Err(Stop::NoMemory),
    }
}
