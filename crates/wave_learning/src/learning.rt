ghost use Rattle.firing_records.specs.Recorded.{standing};
ghost use Rattle.soar_record.specs.Recorded.{recorded as kept_in};
ghost use Rattle.soar_fire.specs.Growth.{Grown};
ghost use Rattle.wave_learning.specs.Hands.{IsToLearn, LearnsAll};

use crate::firings::rising_numbers;
use crate::going::Going;
use crate::hand::AtHand;
use crate::rounds::learn_in_rounds;
use crate::scene::Scene;
use firing_records::Before;
use soar_record::Record;
use soar_settle::Stop;
use soar_sym::SymTable;

/// As many goals as there are at most.
const MOST_GOALS: usize = 100;

/// Learns from the firings of a wave that made something for a higher goal, in order of number, and then from the
/// firings of what was learned, as far as these made something for a still higher goal (Soar manual, chapter 4,
/// chunking). `on` and `local_negations` are how learning is set; `past` has the firings before the wave.
#[tactic(auto, using(soar_fire::proofs::GrowthLemmas::same_table))]
pub fn learn(
    table: &mut SymTable,
    before: &Before<'_>,
    past: &Record,
    on: bool,
    local_negations: bool,
    hand: AtHand,
) -> Result<AtHand, Stop>
    requires { IsToLearn table.old (standing before.now) (kept_in past.now) on local_negations hand }
    ensures learns { LearnsAll table.old (standing before.now) (kept_in past.now) on local_negations hand table.new result }
    ensures words { Grown table.old table.new }
{
    let goals = before.goals.len();
    if MOST_GOALS < goals {
        return Err(Stop::NoMemory);
    }
    let next = rising_numbers(before.alloc, hand.entries.as_slice())?;
    let mut going = Going {
        hand,
        next,
        place: 0,
    };
    let scene = Scene {
        before,
        past,
        on,
        local_negations,
    };
    learn_in_rounds(&scene, table, &mut going, goals)?;
    let Going { hand, .. } = going;
    Ok(hand)
}
