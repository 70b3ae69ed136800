// What was of a level before a wave, and what is local to a goal.
ghost use Rattle.std.specs.Prelude.{◌≡◌};
ghost use Rattle.std.specs.List.{list_any};
ghost use Rattle.defs_soar.specs.History.{firing_seen};
ghost use Rattle.defs_soar.specs.Waves.{lasting_of};
ghost use Rattle.kept_triples.specs.Kept.{level_in_kept};
ghost use Rattle.goal_dependence.specs.Told as told;

use crate::newness::is_new_in;
use defs_soar::{Firing, Preference};
use kept_triples::Kept;
use soar_sym::Sym;

/// Whether an identifier was of a level below that of the goal. One that no goal reached was.
pub fn was_below(levels: &Kept, depth: u32, id: Sym) -> bool
    ensures { result ≡ told.was_told_below (level_in_kept levels.now) depth id }
{
    match levels.level_of(id) {
        Some(level) => level < depth,
        None => true,
    }
}

/// Whether the firing added something lasting to an object of the goal's level, or to one that is new in the firing.
pub fn adds_locally(levels: &Kept, depth: u32, firing: &Firing, added: &[Preference]) -> bool
    ensures { result ≡ list_any (told.is_told_local (level_in_kept levels.now) depth (firing_seen firing.now)) (lasting_of added.now firing.now.number) }
{
    'added: for row in added {
        if lasts_by(row, firing.number) && is_local(levels, depth, firing, row.wish.id) {
            return true;
        }
    }
    false
}

fn lasts_by(row: &Preference, number: u64) -> bool
    ensures { result ≡ told.lasts_by number row.now }
{
    row.firing == number && row.operator_support
}

fn is_local(levels: &Kept, depth: u32, firing: &Firing, id: Sym) -> bool
    ensures { result ≡ told.is_told_local (level_in_kept levels.now) depth (firing_seen firing.now) id }
{
    was_at(levels, depth, id) || is_new_in(firing, id)
}

fn was_at(levels: &Kept, depth: u32, id: Sym) -> bool
    ensures { result ≡ told.was_told_at (level_in_kept levels.now) depth id }
{
    match levels.level_of(id) {
        Some(level) => level == depth,
        None => false,
    }
}
