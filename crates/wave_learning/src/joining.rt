// A rule joins with its firing, which takes the results over.
ghost use Rattle.std.specs.Prelude.{◌≡◌, ◌≤◌, ◌++◌, ◌∷◌, [], length, map, IfOk, OnOk};
ghost use Rattle.soar_rule.specs.Productions.{production_seen};
ghost use Rattle.soar_rule.specs.Symbols.{AreKnown};
ghost use Rattle.defs_match.specs.Rules.{rule_seen};
ghost use Rattle.defs_soar.specs.Goals.{goal_ids};
ghost use Rattle.defs_soar.specs.History.{chain_seen};
ghost use Rattle.firing_records.specs.Recorded.{standing};
ghost use Rattle.learned_firings.specs.Flags.{with_flags};
ghost use Rattle.soar_record.specs.Recorded.{recorded as kept_in};
ghost use Rattle.trace_details.specs.Lessons.{lesson_seen};
ghost use Rattle.wave_entries.specs.Entries.{entry_seen};
ghost use Rattle.defs_soar.specs.Events.{by_learned};
ghost use Rattle.wave_learning.specs.Course.{event_of, joined, moment, next_if, with_rule};
ghost use Rattle.wave_learning.specs.Hands.{program_seen};
ghost use Rattle.wave_learning.specs.Lawful.{IsMatched};
ghost use Rattle.wave_learning.specs.Rising.{AreRising};
ghost use Rattle.wave_learning.specs.Seen.{IsJoining, Leaves, course_of, explained_seen, rule_made};

use crate::going::Going;
use crate::holding::add_entry;
use crate::program::{LearnedRule, Program};
use crate::rules::NewRule;
use crate::scene::Scene;
use defs_match::Rule;
use defs_soar::{Cause, Chain, Firing};
use explained_firings::Explained;
use learned_firings::{learned_entry, learned_firing, next_count};
use soar_settle::Stop;
use soar_sym::{List, NoMemory, SymTable};
use std::alloc::{AllocError, Global};
use trace_details::{HeldBy, LearnedFiring, Lesson};
use wave_entries::Entry;

/// A rule under its number, with the entry of its firing, and whether that is of a higher goal than the firing that the
/// rule explains.
#[derive(Drop)]
pub(crate) struct Joining {
    pub(crate) rule: Rule,
    pub(crate) entry: Entry,
    pub(crate) is_higher: bool,
}

/// The rule joins under the next number, and so does its firing.
pub(crate) fn join(
    scene: &Scene<'_>,
    table: &SymTable,
    going: &mut Going,
    explained: Explained,
    rule: NewRule,
) -> Result<(), Stop>
    requires few { length scene.now.before.now.goals.now ≤ 100 }
    requires goals { AreKnown table.now (goal_ids scene.now.before.now.goals.now) }
    requires matched { IsMatched (standing scene.now.before.now) (production_seen rule.production) rule.elements rule.binds }
    requires rising { AreRising (map entry_seen going.old.hand.entries) }
    ensures { Leaves
        (joined (moment (standing scene.now.before.now) (kept_in scene.now.past.now) scene.now.on scene.now.local_negations) (explained_seen explained) (rule_made rule) (course_of table.now going.old))
        (course_of table.now going.new) result }
{
    let number = next_count(going.hand.program.last_rule)?;
    let last = next_count(going.hand.last)?;
    let joining = joined_rule(scene, table, &explained, rule, number, last)?;
    take_over(scene.before.alloc, going, explained, joining, last)?;
    Ok(())
}

/// The rule under its number, with its firing.
fn joined_rule(
    scene: &Scene<'_>,
    table: &SymTable,
    explained: &Explained,
    rule: NewRule,
    number: u64,
    last: u64,
) -> Result<Joining, NoMemory>
    requires few { length scene.now.before.now.goals.now ≤ 100 }
    requires goals { AreKnown table.now (goal_ids scene.now.before.now.goals.now) }
    requires matched { IsMatched (standing scene.now.before.now) (production_seen rule.production) rule.elements rule.binds }
    ensures { IfOk result (λ it. IsJoining (moment (standing scene.now.before.now) (kept_in scene.now.past.now) scene.now.on scene.now.local_negations) (explained_seen explained.now) (rule_made rule) table.now number last it) }
{
    let NewRule {
        production,
        elements,
        binds,
        why,
    } = rule;
    let rule = Rule::new(scene.before.alloc, number, production)?;
    let recorded = learned_firing(
        table,
        scene.before,
        &rule,
        elements.as_slice(),
        binds,
        last,
        explained.depth,
        explained.chain.results.as_slice(),
    )?;
    let is_higher = recorded.firing.depth < explained.depth;
    let lesson = lesson_of(scene.before.alloc, &recorded.firing, explained.number, why)?;
    let entry = learned_entry(
        scene.before.alloc,
        scene.before.goals.as_slice(),
        recorded,
        lesson,
    )?;
    Ok(Joining {
        rule,
        entry,
        is_higher,
    })
}

/// What is told of the rule's firing.
fn lesson_of(
    alloc: Global,
    firing: &Firing,
    explained: u64,
    why: Option<Cause>,
) -> Result<Lesson, AllocError>
    ensures { IfOk result (λ lesson. lesson_seen lesson ≡ event_of why firing.now.name explained firing.now.number firing.now.instance.tags) }
{
    let learned = LearnedFiring {
        number: firing.number,
        name: firing.name,
        explained,
        tags: List::from_slice(alloc, firing.instance.tags.as_slice())?,
    };
    match why {
        None => Ok(Lesson::Chunk(learned)),
        Some(why) => Ok(Lesson::Justification(learned, why)),
    }
}

/// The rule and its firing are there, and the results go over.
fn take_over(
    alloc: Global,
    going: &mut Going,
    explained: Explained,
    joining: Joining,
    last: u64,
) -> Result<(), NoMemory>
    requires { AreRising (map entry_seen going.old.hand.entries) }
    ensures program { OnOk result (program_seen going.new.hand.program ≡ with_rule (program_seen going.old.hand.program) (rule_seen joining.rule) (chain_seen explained.chain)) }
    ensures last { OnOk result (going.new.hand.last ≡ last) }
    ensures learned { OnOk result (going.new.hand.learned ≡ going.old.hand.learned) }
    ensures entries { OnOk result (map entry_seen going.new.hand.entries ≡ map (with_flags explained.number explained.goes_over by_learned) (map entry_seen going.old.hand.entries) ++ entry_seen joining.entry ∷ []) }
    ensures next { OnOk result (going.new.next ≡ going.old.next ++ next_if joining.is_higher last) }
{
    let Explained {
        number,
        goes_over,
        chain,
        ..
    } = explained;
    let Joining {
        rule,
        entry,
        is_higher,
    } = joining;
    add_rule(&mut going.hand.program, rule, chain)?;
    add_entry(
        alloc,
        &mut going.hand.entries,
        going.place,
        number,
        goes_over.as_slice(),
        HeldBy::Learned,
        entry,
    )?;
    add_next(&mut going.next, is_higher, last)?;
    going.hand.last = last;
    Ok(())
}

/// Adds the number of a firing of a higher goal, from which learning goes on.
fn add_next(next: &mut List<u64>, is_higher: bool, number: u64) -> Result<(), AllocError>
    ensures { OnOk result (next.new ≡ next.old ++ next_if is_higher number) }
{
    if is_higher {
        next.push(number)?;
    }
    Ok(())
}

/// Adds a rule with its explanation, where the numbers of all others are below its own.
fn add_rule(program: &mut Program, rule: Rule, chain: Chain) -> Result<(), NoMemory>
    ensures { OnOk result (program_seen program.new ≡ with_rule (program_seen program.old) (rule_seen rule) (chain_seen chain)) }
{
    let number = rule.number;
    if !program.rules.are_below(number) {
        return Err(NoMemory);
    }
    program.rules.push(rule)?;
    program.chains.push(LearnedRule {
        rule: number,
        chain,
    })?;
    program.last_rule = number;
    Ok(())
}
