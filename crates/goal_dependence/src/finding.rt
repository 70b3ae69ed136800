// The tags that the firings of a wave add, goal by goal.
ghost use Rattle.std.specs.Prelude.{◌≡◌, ◌≤◌, ◌++◌, List as ListOf, length, map, filter, false, drop, take, IfOk, OnOk};
ghost use Rattle.soar_wm.specs.WorkingMemory.{triple_of};
ghost use Rattle.soar_wm.specs.declared.element.Element.{Element as ElementOf};
ghost use Rattle.defs_soar.specs.declared.goal.Goal.{Goal as GoalOf};
ghost use Rattle.defs_soar.specs.Standing.{AreFrom};
ghost use Rattle.kept_triples.specs.Kept.{level_in_kept};
ghost use Rattle.firing_records.specs.Levels.{TellsLevels};
ghost use Rattle.soar_record.specs.Recorded.{recorded as kept_in};
ghost use Rattle.agent_laws.specs.Dependence.{MakersAreEarlier};
ghost use Rattle.goal_dependence.specs.Counted.{higher_as_told, tags_as_told, tags_as_told_from, tags_by};
ghost use Rattle.goal_dependence.specs.Numbers.{has_number};
ghost use Rattle.goal_dependence.specs.Remembered.{firings_of, past_by, reach_over, tags_found_from, CanJoin};
ghost use Rattle.goal_dependence.specs.Told.{was_told_below};

use crate::counting::counts_for;
use crate::locality::was_below;
use crate::wave_record::WithWave;
use chunk_back::grounds;
use defs_soar::{Goal, Preference};
use firing_records::Recorded;
use kept_triples::Kept;
use soar_record::Record;
use soar_sym::{List, NoMemory, Sym};
use soar_wm::Element;
use std::alloc::Global;

/// The tags that the firings of a wave add to what each goal below the top depends on (Soar manual, chapter 2, goal
/// dependency sets), the goal of depth 2 first. The levels are those before the wave, `past` has the firings before it,
/// and `added` the rows that it added.
pub fn tags_found(
    alloc: Global,
    levels: &Kept,
    goals: &[Goal],
    past: &Record,
    recorded: &[Recorded],
    added: &[Preference],
) -> Result<List<List<u32>>, NoMemory>
    requires few { length goals.now ≤ 100 }
    requires new { CanJoin (kept_in past.now) (firings_of recorded.now) }
    requires earlier { MakersAreEarlier (kept_in past.now ++ firings_of recorded.now) }
    ensures { (before : ListOf GoalOf) (elements : ListOf ElementOf) → TellsLevels levels.now before (map triple_of elements)
        → IfOk result (λ tags. tags ≡ tags_found_from (kept_in past.now ++ firings_of recorded.now) (map (past_by (reach_over before elements) added.now) recorded.now) 2 (drop 1 goals.now)) }
{
    past.numbers_stand_once();
    let finding = Finding {
        alloc,
        levels,
        past,
        recorded,
        added,
    };
    finding.for_each(below_top(goals))
}

fn below_top(goals: &[Goal]) -> &[Goal]
    ensures { result.now ≡ drop 1 goals.now }
{
    match goals.split_first() {
        Some((_, below)) => below,
        None => goals,
    }
}

/// Where tags are found: the levels and the firings before a wave, its firings, and the rows that it added.
#[derive(Drop)]
struct Finding<'a> {
    alloc: Global,
    levels: &'a Kept,
    past: &'a Record,
    recorded: &'a [Recorded],
    added: &'a [Preference],
    ghost earlier: { MakersAreEarlier (kept_in past.now ++ firings_of recorded.now) },
}

impl<'a> Finding<'a> {
    /// The tags for each of these goals, of which the first is of depth 2.
    fn for_each(&self, goals: &[Goal]) -> Result<List<List<u32>>, NoMemory>
        requires few { length goals.now ≤ 100 }
        requires new { CanJoin (kept_in self.now.past.now) (firings_of self.now.recorded.now) }
        requires once { AreFrom (kept_in self.now.past.now ++ firings_of self.now.recorded.now) (kept_in self.now.past.now ++ firings_of self.now.recorded.now) }
        ensures { IfOk result (λ found. found ≡ tags_as_told_from (level_in_kept self.now.levels.now) (kept_in self.now.past.now ++ firings_of self.now.recorded.now) self.now.added.now self.now.recorded.now 2 goals.now) }
    {
        let mut found = List::new(self.alloc);
        let mut depth: u32 = 2;
        'goals: for goal in goals {
            found.push(self.for_goal(goal.id, depth)?)?;
            depth += 1;
        }
        Ok(found)
    }

    fn for_goal(&self, goal: Sym, depth: u32) -> Result<List<u32>, NoMemory>
        requires new { CanJoin (kept_in self.now.past.now) (firings_of self.now.recorded.now) }
        requires once { AreFrom (kept_in self.now.past.now ++ firings_of self.now.recorded.now) (kept_in self.now.past.now ++ firings_of self.now.recorded.now) }
        ensures { IfOk result (λ tags. tags ≡ tags_as_told (level_in_kept self.now.levels.now) (kept_in self.now.past.now ++ firings_of self.now.recorded.now) self.now.added.now goal depth self.now.recorded.now) }
    {
        let mut tags = List::new(self.alloc);
        'recorded: for (at, firing) in self.recorded.iter().enumerate() {
            self.add_counted(goal, depth, at, firing, &mut tags)?;
        }
        Ok(tags)
    }

    /// Adds what the firing at a place adds, where it counts for the goal.
    fn add_counted(
        &self,
        goal: Sym,
        depth: u32,
        at: usize,
        recorded: &Recorded,
        tags: &mut List<u32>,
    ) -> Result<(), NoMemory>
        requires once { AreFrom (kept_in self.now.past.now ++ firings_of self.now.recorded.now) (kept_in self.now.past.now ++ firings_of self.now.recorded.now) }
        requires none_before { has_number (kept_in self.now.past.now ++ firings_of (take at self.now.recorded.now)) recorded.now.firing.number ≡ false }
        ensures { OnOk result (tags.new ≡ tags.old ++ tags_by (level_in_kept self.now.levels.now) (kept_in self.now.past.now ++ firings_of self.now.recorded.now) self.now.added.now goal depth recorded.now) }
    {
        if counts_for(self.levels, goal, depth, recorded, self.added) {
            self.add_higher(depth, at, recorded.firing.number, tags)
        } else {
            Ok(())
        }
    }

    /// Adds the grounds of a firing's explanation that were of a higher level.
    fn add_higher(
        &self,
        depth: u32,
        at: usize,
        number: u64,
        tags: &mut List<u32>,
    ) -> Result<(), NoMemory>
        requires once { AreFrom (kept_in self.now.past.now ++ firings_of self.now.recorded.now) (kept_in self.now.past.now ++ firings_of self.now.recorded.now) }
        requires none_before { has_number (kept_in self.now.past.now ++ firings_of (take at self.now.recorded.now)) number ≡ false }
        ensures { OnOk result (tags.new ≡ tags.old ++ higher_as_told (level_in_kept self.now.levels.now) (kept_in self.now.past.now ++ firings_of self.now.recorded.now) depth number) }
    {
        let kept = WithWave {
            past: self.past,
            wave: self.recorded,
            at,
            number,
        };
        let elements = grounds(self.alloc, &kept, &[number])?;
        add_those_below(self.levels, depth, elements.as_slice(), tags)
    }
}

fn add_those_below(
    levels: &Kept,
    depth: u32,
    elements: &[Element],
    tags: &mut List<u32>,
) -> Result<(), NoMemory>
    ensures { OnOk result (tags.new ≡ tags.old ++ map (λ e. e.tag) (filter (λ e. was_told_below (level_in_kept levels.now) depth e.id) elements.now)) }
{
    'elements: for element in elements {
        if was_below(levels, depth, element.id) {
            tags.push(element.tag)?;
        }
    }
    Ok(())
}
