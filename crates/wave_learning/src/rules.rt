// Rules that are learned.
ghost use Rattle.std.specs.Prelude.{◌≡◌, ◌≤◌, length, map};
ghost use Rattle.soar_rule.specs.Productions.{production_seen};
ghost use Rattle.soar_rule.specs.Symbols.{AreKnown};
ghost use Rattle.defs_soar.specs.Goals.{goal_ids};
ghost use Rattle.firing_records.specs.Recorded.{standing};
ghost use Rattle.soar_record.specs.Recorded.{recorded as kept_in};
ghost use Rattle.soar_fire.specs.Growth.{OnlyGrows};
ghost use Rattle.wave_learning.specs.Course.{learned, moment};
ghost use Rattle.wave_entries.specs.Entries.{entry_seen};
ghost use Rattle.wave_learning.specs.Lawful.{IsMatched};
ghost use Rattle.wave_learning.specs.Rising.{AreRising};
ghost use Rattle.wave_learning.specs.Seen.{Leaves, course_of, explained_seen, rule_made};

use crate::going::Going;
use crate::joining::join;
use crate::named::named;
use crate::scene::Scene;
use defs_soar::Cause;
use explained_firings::Explained;
use soar_rule::Production;
use soar_settle::Stop;
use soar_sym::{List, Sym, SymTable};
use soar_wm::Element;

/// A rule at the elements that its conditions are of, with what its variables stand for; a justification with its cause.
#[derive(Drop)]
pub(crate) struct NewRule {
    pub(crate) production: Production,
    pub(crate) elements: List<Element>,
    pub(crate) binds: List<Sym>,
    pub(crate) why: Option<Cause>,
}

/// The rule gets its name, and joins with its firing.
pub(crate) fn learn_rule(
    scene: &Scene<'_>,
    table: &mut SymTable,
    going: &mut Going,
    explained: Explained,
    rule: NewRule,
) -> Result<(), Stop>
    requires few { length scene.now.before.now.goals.now ≤ 100 }
    requires goals { AreKnown table.old (goal_ids scene.now.before.now.goals.now) }
    requires matched { IsMatched (standing scene.now.before.now) (production_seen rule.production) rule.elements rule.binds }
    requires rising { AreRising (map entry_seen going.old.hand.entries) }
    ensures answer { Leaves
        (learned (moment (standing scene.now.before.now) (kept_in scene.now.past.now) scene.now.on scene.now.local_negations) (explained_seen explained) (rule_made rule) (course_of table.old going.old))
        (course_of table.new going.new) result }
    ensures words { OnlyGrows table.old table.new }
{
    let rule = named(scene.before.alloc, table, going, rule)?;
    join(scene, table, going, explained, rule)
}
