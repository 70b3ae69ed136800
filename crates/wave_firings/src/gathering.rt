// A firing with what it made joins the earlier ones of its wave.
ghost use Rattle.std.specs.Prelude.{◌≡◌, ◌≤◌, ◌++◌, ◌∷◌, ◌||◌, [], length, map, IfOk, OnOk};
ghost use Rattle.soar_rule.specs.Variables.{bound_variables};
ghost use Rattle.defs_match.specs.Rules.{rule_seen};
ghost use Rattle.defs_soar.specs.Pending.{firable_of};
ghost use Rattle.defs_soar.specs.WaveAtHand.{fired};
ghost use Rattle.firing_records.specs.Recorded.{standing};
ghost use Rattle.wave_entries.specs.Entries.{entry_seen, fresh_at_hand};
ghost use Rattle.wave_firings.specs.Held.{against, fresh_made, told_as};

use crate::firing::Fired;
use crate::held::held_of;
use crate::scene::Scene;
use defs_match::{Instance, Rule};
use defs_soar::Made;
use firing_records::recorded;
use soar_sym::{List, NoMemory, Sym, Text};
use std::alloc::{AllocError, Global};
use wave_entries::{Entry, Fresh, Heading, Told};

/// Adds a firing with what it made, and records it with the goals among its symbols.
pub fn gather(
    scene: &Scene<'_>,
    rule: &Rule,
    instance: &Instance,
    number: u64,
    goals: List<Sym>,
    made: &Made,
    gathered: &mut Fired,
) -> Result<(), NoMemory>
    requires binds { length instance.now.binds ≡ length (bound_variables (rule_seen rule.now).production.conditions) }
    requires few { length scene.now.before.now.goals.now ≤ 100 }
    ensures entries { OnOk result (map entry_seen gathered.new.entries ≡ map entry_seen gathered.old.entries
        ++ fired (fresh_made (against (standing scene.now.before.now)) (firable_of scene.now.before.now.memory.now.elements (rule_seen rule.now) instance.now)
        number goals made.now.wishes made.now.dropped made.now.texts) ∷ []) }
    ensures halted { OnOk result (gathered.new.halted ≡ gathered.old.halted || made.now.halted) }
{
    let fresh = at_hand(scene, rule, instance, number, goals, made)?;
    gathered.entries.push(Entry::Fired(fresh))?;
    gathered.halted = gathered.halted || made.halted;
    Ok(())
}

/// The firing as the wave holds it: as it is recorded, and as it is told.
fn at_hand(
    scene: &Scene<'_>,
    rule: &Rule,
    instance: &Instance,
    number: u64,
    goals: List<Sym>,
    made: &Made,
) -> Result<Fresh, NoMemory>
    requires binds { length instance.now.binds ≡ length (bound_variables (rule_seen rule.now).production.conditions) }
    requires few { length scene.now.before.now.goals.now ≤ 100 }
    ensures { IfOk result (λ fresh. fresh_at_hand fresh
        ≡ fresh_made (against (standing scene.now.before.now)) (firable_of scene.now.before.now.memory.now.elements (rule_seen rule.now) instance.now)
        number goals made.now.wishes made.now.dropped made.now.texts) }
{
    let wishes = made.wishes.as_slice();
    let recorded = recorded(scene.before, rule, instance, number, goals, wishes)?;
    let told = told_of(scene, rule, instance, number, recorded.operator_kind, made)?;
    Ok(Fresh { recorded, told })
}

/// The firing as it is told, with how its preferences are held.
fn told_of(
    scene: &Scene<'_>,
    rule: &Rule,
    instance: &Instance,
    number: u64,
    operator_kind: bool,
    made: &Made,
) -> Result<Told, NoMemory>
    ensures { IfOk result (λ told. told ≡ told_as scene.now.before.now.goals.now operator_kind (rule_seen rule.now) instance.now number made.now.wishes made.now.dropped made.now.texts) }
{
    let goals = scene.before.goals.as_slice();
    Ok(Told {
        heading: Heading::Fires {
            number,
            name: rule.production.name,
            instance: copy_of(scene.alloc, instance)?,
        },
        wishes: held_of(scene.alloc, goals, operator_kind, made.wishes.as_slice())?,
        dropped: List::from_slice(scene.alloc, made.dropped.as_slice())?,
        text: Text::from_str(scene.alloc, made.texts.as_str())?,
    })
}

fn copy_of(alloc: Global, instance: &Instance) -> Result<Instance, AllocError>
    ensures { IfOk result (λ copy. copy ≡ instance.now) }
{
    Ok(Instance {
        rule: instance.rule,
        tags: List::from_slice(alloc, instance.tags.as_slice())?,
        binds: List::from_slice(alloc, instance.binds.as_slice())?,
    })
}
