// The walk over the goals.
ghost use Rattle.std.specs.Prelude.{◌≡◌, ◌<◌, ◌≤◌, length, None, IfOk, OnOk};
ghost use Rattle.defs_soar.specs.Walk.{walked};
ghost use Rattle.decision_walk.specs.Ends.{decided_seen};
ghost use Rattle.decision_walk.specs.First.{AreFirst};
ghost use Rattle.decision_walk.specs.Steps.{Steps, outcome_below, walked_below};
ghost use Rattle.soar_choose.specs.Rows.{AreInRange, AreKnown, IsFraction};
ghost use Rattle.soar_decide.specs.Outcomes.{outcome_seen, view_seen};

use crate::decided::Decided;
use crate::stepping::take_outcome;
use soar_decide::{Outcome, View, decide};
use soar_goals::Goals;
use soar_sym::NoMemory;

/// Goes from the top goal down to the first that does not stay as it is: its operator is replaced, or it meets an impasse
/// that is not that of the goal below, or none is below. What was below goes (Soar manual, chapter 2, decision procedure).
pub fn walk(view: &View<'_>, goals: &mut Goals) -> Result<Decided, NoMemory>
    requires known { AreKnown view.now.table.now view.now.prefs.now.rows }
    requires few { length view.now.prefs.now.rows ≤ 1000000 }
    requires range { AreInRange view.now.prefs.now.rows }
    requires fraction { IsFraction view.now.mode }
    ensures goals { OnOk result (goals.new ≡ (walked (view_seen view.now) None goals.old).goals) }
    ensures decided { IfOk result (λ decided. decided_seen decided ≡ (walked (view_seen view.now) None goals.old).decided) }
    ensures first { OnOk result (AreFirst goals.old goals.new) }
{
    let count = goals.list().len();
    'depths: for above in 0..count {
        if let Some(decided) = step(view, goals, above)? {
            return Ok(decided);
        }
    }
    unreachable!()
}

/// What the walk does at the goal with so many above it.
fn step(view: &View<'_>, goals: &mut Goals, above: usize) -> Result<Option<Decided>, NoMemory>
    requires known { AreKnown view.now.table.now view.now.prefs.now.rows }
    requires few { length view.now.prefs.now.rows ≤ 1000000 }
    requires range { AreInRange view.now.prefs.now.rows }
    requires fraction { IsFraction view.now.mode }
    requires there { above < length goals.old }
    requires stack { length goals.old ≤ 100 }
    ensures { IfOk result (λ decided. Steps (view_seen view.now) (walked_below (view_seen view.now) above goals.old) above goals.old goals.new decided) }
{
    let outcome = outcome_below(view, goals, above)?;
    Ok(take_outcome(view.alloc, goals, above, outcome))
}

/// What the goal with so many above it comes to.
fn outcome_below(view: &View<'_>, goals: &Goals, above: usize) -> Result<Outcome, NoMemory>
    requires known { AreKnown view.now.table.now view.now.prefs.now.rows }
    requires few { length view.now.prefs.now.rows ≤ 1000000 }
    requires range { AreInRange view.now.prefs.now.rows }
    requires fraction { IsFraction view.now.mode }
    requires there { above < length goals.now }
    ensures { IfOk result (λ outcome. outcome_seen outcome ≡ outcome_below (view_seen view.now) above goals.now) }
{
    match goals.list().get(above) {
        Some(goal) => decide(view, goal),
        None => unreachable!(),
    }
}
