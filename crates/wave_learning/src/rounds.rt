// Rounds of learning, and firings in turn.
ghost use Rattle.std.specs.Prelude.{◌≡◌, ◌≤◌, length, IfOk};
ghost use Rattle.firing_records.specs.Recorded.{standing};
ghost use Rattle.soar_record.specs.Recorded.{recorded as kept_in};
ghost use Rattle.soar_fire.specs.Growth.{OnlyGrows};
ghost use Rattle.soar_sym.specs.Words.{Texts};
ghost use Rattle.wave_learning.specs.Course.{from_each, from_number, moment, round_of, rounds_of, without_next};
ghost use Rattle.wave_learning.specs.Lawful.{IsLawfulCourse};
ghost use Rattle.wave_learning.specs.Seen.{Leaves, TellsExplained, course_of};

use crate::firings::{firing_numbered, place_from};
use crate::going::Going;
use crate::scene::Scene;
use crate::teaching::learn_from;
use explained_firings::{Explained, explain};
use soar_settle::Stop;
use soar_sym::{List, NoMemory, SymTable};
use std::alloc::Global;
use std::mem::replace;

/// So many rounds: each is about firings of higher goals than the one before.
pub(crate) fn learn_in_rounds(
    scene: &Scene<'_>,
    table: &mut SymTable,
    going: &mut Going,
    rounds: usize,
) -> Result<(), Stop>
    requires few { length scene.now.before.now.goals.now ≤ 100 }
    requires lawful { IsLawfulCourse (standing scene.now.before.now) (kept_in scene.now.past.now) scene.now.on scene.now.local_negations (course_of table.old going.old) }
    ensures answer { Leaves
        (rounds_of (moment (standing scene.now.before.now) (kept_in scene.now.past.now) scene.now.on scene.now.local_negations) rounds (course_of table.old going.old))
        (course_of table.new going.new) result }
    ensures words { OnlyGrows table.old table.new }
{
    'rounds: for _ in 0..rounds {
        one_round(scene, table, going)?;
    }
    Ok(())
}

/// Learns from the firings that are next, whose learned firings take their turn afterwards.
fn one_round(scene: &Scene<'_>, table: &mut SymTable, going: &mut Going) -> Result<(), Stop>
    requires few { length scene.now.before.now.goals.now ≤ 100 }
    requires lawful { IsLawfulCourse (standing scene.now.before.now) (kept_in scene.now.past.now) scene.now.on scene.now.local_negations (course_of table.old going.old) }
    ensures answer { Leaves
        (round_of (moment (standing scene.now.before.now) (kept_in scene.now.past.now) scene.now.on scene.now.local_negations) (course_of table.old going.old))
        (course_of table.new going.new) result }
    ensures words { OnlyGrows table.old table.new }
{
    let numbers = take_next(scene.before.alloc, going);
    learn_from_each(scene, table, going, numbers.as_slice())
}

/// The firings that are next, of which none is left.
fn take_next(alloc: Global, going: &mut Going) -> List<u64>
    ensures next { result ≡ going.old.next }
    ensures none { (words : Texts) → course_of words going.new ≡ without_next (course_of words going.old) }
{
    replace(&mut going.next, List::new(alloc))
}

fn learn_from_each(
    scene: &Scene<'_>,
    table: &mut SymTable,
    going: &mut Going,
    numbers: &[u64],
) -> Result<(), Stop>
    requires few { length scene.now.before.now.goals.now ≤ 100 }
    requires lawful { IsLawfulCourse (standing scene.now.before.now) (kept_in scene.now.past.now) scene.now.on scene.now.local_negations (course_of table.old going.old) }
    ensures answer { Leaves
        (from_each (moment (standing scene.now.before.now) (kept_in scene.now.past.now) scene.now.on scene.now.local_negations) numbers.now (course_of table.old going.old))
        (course_of table.new going.new) result }
    ensures words { OnlyGrows table.old table.new }
{
    'numbers: for number in numbers {
        learn_from_number(scene, table, going, *number)?;
    }
    Ok(())
}

/// Learns from the firing of a number, where it made something for a higher goal.
#[tactic(auto, using(soar_fire::proofs::GrowthLemmas::not_grown))]
fn learn_from_number(
    scene: &Scene<'_>,
    table: &mut SymTable,
    going: &mut Going,
    number: u64,
) -> Result<(), Stop>
    requires few { length scene.now.before.now.goals.now ≤ 100 }
    requires lawful { IsLawfulCourse (standing scene.now.before.now) (kept_in scene.now.past.now) scene.now.on scene.now.local_negations (course_of table.old going.old) }
    ensures answer { Leaves
        (from_number (moment (standing scene.now.before.now) (kept_in scene.now.past.now) scene.now.on scene.now.local_negations) number (course_of table.old going.old))
        (course_of table.new going.new) result }
    ensures words { OnlyGrows table.old table.new }
{
    going.place = place_from(going.hand.entries.as_slice(), going.place, number);
    let found = explained_at(scene, table, going, number)?;
    match found {
        Some(explained) => learn_from(scene, table, going, explained),
        None => Ok(()),
    }
}

/// The explanation of the firing of a number, where it has one.
fn explained_at(
    scene: &Scene<'_>,
    table: &SymTable,
    going: &Going,
    number: u64,
) -> Result<Option<Explained>, NoMemory>
    requires few { length scene.now.before.now.goals.now ≤ 100 }
    requires lawful { IsLawfulCourse (standing scene.now.before.now) (kept_in scene.now.past.now) scene.now.on scene.now.local_negations (course_of table.now going.now) }
    ensures { IfOk result (λ found. TellsExplained (standing scene.now.before.now) (kept_in scene.now.past.now) scene.now.on scene.now.local_negations number (course_of table.now going.now) found) }
{
    match firing_numbered(&going.hand.entries, going.place, number) {
        Some(firing) => explain(table, scene.before, scene.past, firing),
        None => Ok(None),
    }
}
