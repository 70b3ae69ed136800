ghost use Rattle.std.specs.Prelude.{◌≡◌, ◌≤◌, length, map, IfOk};
ghost use Rattle.soar_rule.specs.Symbols.{AreKnown};
ghost use Rattle.soar_fire.specs.Fires.{AreWishesKnown};
ghost use Rattle.soar_fire.specs.Growth.{Grown, LettersKeep};
ghost use Rattle.defs_match.specs.Rules.{rule_seen};
ghost use Rattle.defs_soar.specs.Goals.{goal_ids};
ghost use Rattle.trace_laws.specs.Events.{AreEventsKnown};
ghost use Rattle.soar_settle.specs.Known.{AreInstancesKnown, AreRulesKnown, AreRowsKnown};
ghost use Rattle.firing_records.specs.Recorded.{standing};
ghost use Rattle.pending_work.specs.Firables.{AreNumbered, AreBound};
ghost use Rattle.wave_entries.specs.Entries.{entry_seen};
ghost use Rattle.wave_firings.specs.FiresAll.{FiresAll};
ghost use Rattle.wave_firings.specs.FiringOutcome.{nothing_fired};
ghost use Rattle.wave_firings.specs.Listed.{events_in, recorded_in, rows_in, wishes_in};
ghost use Rattle.wave_firings.specs.Numbered.{AreGoalsOf, AreMakersOfFirings, AreMakersUpTo, AreNumberedAfter, AreOfFirings};

use crate::scene::Scene;
use crate::turns::fire_each;
use defs_match::Instance;
use firing_records::Before;
use rule_shelf::Rules;
use soar_settle::Stop;
use soar_sym::{Letters, List, NoMemory, SymTable};
use std::alloc::Global;
use wave_entries::Entry;

/// The firings of a wave in turn, each as it is recorded and as it is told, and whether one halts.
#[derive(Drop)]
pub struct Fired {
    pub entries: List<Entry>,
    pub halted: bool,
}

/// Fires the instances in order, numbered from the one after `last` on, against what is there before the wave
/// (Soar manual, chapter 2, elaboration cycle). Each preference is held as the kind of its firing has it; what learning
/// makes of those for higher goals comes later.
/// Of a wave that is stopped new words and identifiers may stay.
pub fn fire_all(
    alloc: Global,
    table: &mut SymTable,
    letters: &mut Letters,
    before: &Before<'_>,
    rules: &Rules,
    instances: &List<Instance>,
    last: u64,
) -> Result<Fired, Stop>
    requires numbered { AreNumbered (map rule_seen rules.now) }
    requires bound { AreBound (map rule_seen rules.now) instances.now }
    requires rules { AreRulesKnown table.old (map rule_seen rules.now) }
    requires known { AreInstancesKnown table.old instances.now }
    requires goals_known { AreKnown table.old (goal_ids before.now.goals.now) }
    requires goals_few { length before.now.goals.now ≤ 100 }
    ensures answer { FiresAll table.old letters.old (standing before.now) (map rule_seen rules.now) instances.now last table.new letters.new result }
    ensures known { IfOk result (λ fired. AreRowsKnown table.new (rows_in (map entry_seen fired.entries))) }
    ensures made_known { IfOk result (λ fired. AreWishesKnown table.new (wishes_in (map entry_seen fired.entries))) }
    ensures words { Grown table.old table.new }
    ensures letters { LettersKeep letters.old letters.new }
    ensures numbers { IfOk result (λ fired. AreNumberedAfter last (recorded_in (map entry_seen fired.entries))) }
    ensures earlier { AreOfFirings last before.now.prefs.now.rows → AreMakersOfFirings last before.now.goals.now
        → IfOk result (λ fired. AreMakersUpTo last (recorded_in (map entry_seen fired.entries))) }
    ensures told_known { IfOk result (λ fired. AreEventsKnown table.new (events_in (map entry_seen fired.entries))) }
    ensures goals { IfOk result (λ fired. AreGoalsOf before.now.goals.now (recorded_in (map entry_seen fired.entries))) }
{
    let mut fired = nothing_fired(alloc, instances.len())?;
    let scene = Scene {
        alloc,
        before,
        rules,
    };
    fire_each(
        &scene,
        instances.as_slice(),
        last,
        table,
        letters,
        &mut fired,
    )?;
    Ok(fired)
}

/// Nothing yet, and room for so many firings.
fn nothing_fired(alloc: Global, count: usize) -> Result<Fired, NoMemory>
    ensures { IfOk result (λ fired. fired ≡ nothing_fired) }
{
    Ok(Fired {
        entries: List::from_vec(Vec::with_capacity(alloc, count)?),
        halted: false,
    })
}
