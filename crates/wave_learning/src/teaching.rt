// What becomes of an explanation.
ghost use Rattle.std.specs.Option.{option_map};
ghost use Rattle.std.specs.Prelude.{◌≡◌, ◌≤◌, Some, length, map, IfOk};
ghost use Rattle.soar_rule.specs.Symbols.{AreKnown};
ghost use Rattle.soar_sym.specs.Words.{Texts};
ghost use Rattle.condition_order.specs.Orders.{AreElementsKnown};
ghost use Rattle.defs_soar.specs.CandidateOf.{as_chunk, as_justified, learned_seen};
ghost use Rattle.defs_soar.specs.ConditionOrder.{ordered_grounds};
ghost use Rattle.defs_soar.specs.Goals.{goal_ids};
ghost use Rattle.defs_soar.specs.History.{chain_seen};
ghost use Rattle.firing_records.specs.Recorded.{standing};
ghost use Rattle.soar_record.specs.Recorded.{recorded as kept_in};
ghost use Rattle.soar_fire.specs.Growth.{OnlyGrows};
ghost use Rattle.trace_details.specs.Lessons.{lesson_seen};
ghost use Rattle.wave_entries.specs.Entries.{entry_seen};
ghost use Rattle.wave_learning.specs.Course.{by_learned_of, chunk_made, justification_made, moment, noted_by, reached, taught};
ghost use Rattle.wave_learning.specs.Lawful.{IsExplainedIn, MatchesAs};
ghost use Rattle.wave_learning.specs.Rising.{AreRising};
ghost use Rattle.wave_learning.specs.Seen.{Leaves, course_of, explained_seen, rule_made};
ghost use Rattle.soar_rule.specs.Productions.{production_seen};

use crate::candidates::candidate_of;
use crate::going::Going;
use crate::holding::add_entry;
use crate::rules::{NewRule, learn_rule};
use crate::scene::Scene;
use chunk_learn::outcome;
use condition_order::{GroundOrder, ordered};
use defs_soar::{Cause, Learned, Learning};
use explained_firings::Explained;
use learned_firings::identifiers_of;
use soar_rule::Production;
use soar_settle::Stop;
use soar_sym::{List, NoMemory, SymTable};
use std::alloc::Global;
use trace_details::{HeldBy, Lesson};
use wave_entries::Entry;

/// Makes a rule of an explanation, where one can be made.
#[tactic(auto, using(soar_fire::proofs::GrowthLemmas::grown_twice))]
pub(crate) fn learn_from(
    scene: &Scene<'_>,
    table: &mut SymTable,
    going: &mut Going,
    explained: Explained,
) -> Result<(), Stop>
    requires few { length scene.now.before.now.goals.now ≤ 100 }
    requires explained { IsExplainedIn (standing scene.now.before.now) (kept_in scene.now.past.now) scene.now.on scene.now.local_negations (course_of table.old going.old) (explained_seen explained) }
    ensures answer { Leaves
        (taught (moment (standing scene.now.before.now) (kept_in scene.now.past.now) scene.now.on scene.now.local_negations) (explained_seen explained) (course_of table.old going.old))
        (course_of table.new going.new) result }
    ensures words { OnlyGrows table.old table.new }
{
    let alloc = scene.before.alloc;
    let candidate = candidate_of(alloc, table, &explained.chain, explained.depth)?;
    let settings = Learning {
        on: scene.on,
        local_negations: scene.local_negations,
        learned: going.hand.learned,
    };
    let learned = outcome(
        alloc,
        &candidate,
        &explained.chain,
        &going.hand.program.rules,
        scene.before.memory,
        &settings,
    )?;
    take_in(scene, table, going, explained, learned)
}

/// Takes in what was learned.
#[tactic(auto, using(soar_fire::proofs::GrowthLemmas::not_grown))]
fn take_in(
    scene: &Scene<'_>,
    table: &mut SymTable,
    going: &mut Going,
    explained: Explained,
    learned: Learned,
) -> Result<(), Stop>
    requires few { length scene.now.before.now.goals.now ≤ 100 }
    requires goals { AreKnown table.old (goal_ids scene.now.before.now.goals.now) }
    requires grounds { AreElementsKnown table.old explained.chain.grounds }
    requires matches { MatchesAs (standing scene.now.before.now) table.old (chain_seen explained.chain) (learned_seen learned) }
    requires rising { AreRising (map entry_seen going.old.hand.entries) }
    ensures answer { Leaves
        (by_learned_of (moment (standing scene.now.before.now) (kept_in scene.now.past.now) scene.now.on scene.now.local_negations) (explained_seen explained) (course_of table.old going.old) (learned_seen learned))
        (course_of table.new going.new) result }
    ensures words { OnlyGrows table.old table.new }
{
    let alloc = scene.before.alloc;
    let number = explained.number;
    match learned {
        Learned::Chunk(production) => learn_chunk(scene, table, going, explained, production),
        Learned::Justified(found, why) => {
            learn_justified(scene, table, going, explained, found, why)
        }
        Learned::Reused(name) => note(
            alloc,
            going,
            &explained,
            Lesson::Reused {
                name,
                explained: number,
            },
        ),
        Learned::Lost(tag) => note(
            alloc,
            going,
            &explained,
            Lesson::Lost {
                explained: number,
                tag,
            },
        ),
        Learned::Blocked(place, tag) => note(
            alloc,
            going,
            &explained,
            Lesson::Blocked {
                explained: number,
                place,
                tag,
            },
        ),
    }
}

/// A chunk is learned.
#[tactic(auto, using(soar_fire::proofs::GrowthLemmas::not_grown))]
fn learn_chunk(
    scene: &Scene<'_>,
    table: &mut SymTable,
    going: &mut Going,
    explained: Explained,
    production: Production,
) -> Result<(), Stop>
    requires few { length scene.now.before.now.goals.now ≤ 100 }
    requires goals { AreKnown table.old (goal_ids scene.now.before.now.goals.now) }
    requires grounds { AreElementsKnown table.old explained.chain.grounds }
    requires matches { MatchesAs (standing scene.now.before.now) table.old (chain_seen explained.chain) (as_chunk (production_seen production)) }
    requires rising { AreRising (map entry_seen going.old.hand.entries) }
    ensures answer { Leaves
        (by_learned_of (moment (standing scene.now.before.now) (kept_in scene.now.past.now) scene.now.on scene.now.local_negations) (explained_seen explained) (course_of table.old going.old) (as_chunk (production_seen production)))
        (course_of table.new going.new) result }
    ensures words { OnlyGrows table.old table.new }
{
    let rule = chunk_made(scene.before.alloc, table, &explained, production)?;
    learn_rule(scene, table, going, explained, rule)
}

/// A justification is learned, or there are no grounds for one.
#[tactic(auto, using(soar_fire::proofs::GrowthLemmas::not_grown))]
fn learn_justified(
    scene: &Scene<'_>,
    table: &mut SymTable,
    going: &mut Going,
    explained: Explained,
    found: Option<Production>,
    why: Cause,
) -> Result<(), Stop>
    requires few { length scene.now.before.now.goals.now ≤ 100 }
    requires goals { AreKnown table.old (goal_ids scene.now.before.now.goals.now) }
    requires grounds { AreElementsKnown table.old explained.chain.grounds }
    requires matches { MatchesAs (standing scene.now.before.now) table.old (chain_seen explained.chain) (as_justified (option_map production_seen found) why) }
    requires rising { AreRising (map entry_seen going.old.hand.entries) }
    ensures answer { Leaves
        (by_learned_of (moment (standing scene.now.before.now) (kept_in scene.now.past.now) scene.now.on scene.now.local_negations) (explained_seen explained) (course_of table.old going.old) (as_justified (option_map production_seen found) why))
        (course_of table.new going.new) result }
    ensures words { OnlyGrows table.old table.new }
{
    match found {
        Some(production) => justify(scene, table, going, explained, production, why),
        None => {
            let lesson = Lesson::NoGrounds {
                explained: explained.number,
            };
            note(scene.before.alloc, going, &explained, lesson)
        }
    }
}

#[tactic(auto, using(soar_fire::proofs::GrowthLemmas::not_grown))]
fn justify(
    scene: &Scene<'_>,
    table: &mut SymTable,
    going: &mut Going,
    explained: Explained,
    production: Production,
    why: Cause,
) -> Result<(), Stop>
    requires few { length scene.now.before.now.goals.now ≤ 100 }
    requires goals { AreKnown table.old (goal_ids scene.now.before.now.goals.now) }
    requires grounds { AreElementsKnown table.old explained.chain.grounds }
    requires matches { MatchesAs (standing scene.now.before.now) table.old (chain_seen explained.chain) (as_justified (Some (production_seen production)) why) }
    requires rising { AreRising (map entry_seen going.old.hand.entries) }
    ensures answer { Leaves
        (by_learned_of (moment (standing scene.now.before.now) (kept_in scene.now.past.now) scene.now.on scene.now.local_negations) (explained_seen explained) (course_of table.old going.old) (as_justified (Some (production_seen production)) why))
        (course_of table.new going.new) result }
    ensures words { OnlyGrows table.old table.new }
{
    let rule = justification_made(scene.before.alloc, table, &explained, production, why)?;
    learn_rule(scene, table, going, explained, rule)
}

/// Notes what became of an explanation without a rule. Its results stay with their firing, and have instance support.
fn note(alloc: Global, going: &mut Going, explained: &Explained, lesson: Lesson) -> Result<(), Stop>
    requires { AreRising (map entry_seen going.old.hand.entries) }
    ensures { (words : Texts) → Leaves (reached (noted_by (explained_seen explained.now) (lesson_seen lesson) (course_of words going.old))) (course_of words going.new) result }
{
    add_entry(
        alloc,
        &mut going.hand.entries,
        going.place,
        explained.number,
        explained.goes_over.as_slice(),
        HeldBy::Instance,
        Entry::Noted(lesson),
    )?;
    Ok(())
}

/// The rule of a chunk, at the grounds that its conditions are of.
fn chunk_made(
    alloc: Global,
    table: &SymTable,
    explained: &Explained,
    production: Production,
) -> Result<NewRule, NoMemory>
    requires { AreElementsKnown table.now explained.now.chain.grounds }
    ensures { IfOk result (λ rule. rule_made rule ≡ chunk_made (explained_seen explained.now) (ordered_grounds table.now explained.now.chain.grounds) (production_seen production)) }
{
    let order = ordered(alloc, table, &explained.chain.grounds)?;
    let binds = identifiers_of(alloc, order.taken.as_slice())?;
    Ok(NewRule {
        production,
        elements: order.taken,
        binds,
        why: None,
    })
}

/// The rule of a justification, at all of its grounds.
fn justification_made(
    alloc: Global,
    table: &SymTable,
    explained: &Explained,
    production: Production,
    why: Cause,
) -> Result<NewRule, NoMemory>
    requires { AreElementsKnown table.now explained.now.chain.grounds }
    ensures { IfOk result (λ rule. rule_made rule ≡ justification_made (explained_seen explained.now) (ordered_grounds table.now explained.now.chain.grounds) (production_seen production) why) }
{
    let GroundOrder { taken, left, .. } = ordered(alloc, table, &explained.chain.grounds)?;
    let mut elements = taken;
    elements.extend_from_slice(left.as_slice())?;
    Ok(NewRule {
        production,
        elements,
        binds: List::new(alloc),
        why: Some(why),
    })
}
