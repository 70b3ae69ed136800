// The firings of a wave that count for goals: those of operator kind that added something lasting to a local object.
ghost use Rattle.std.specs.Prelude.{◌≡◌};
ghost use Rattle.defs_soar.specs.Dependencies as meaning;
ghost use Rattle.kept_triples.specs.Kept.{level_in_kept};
ghost use Rattle.goal_dependence.specs.Counted as told;

use crate::locality::adds_locally;
use defs_soar::Preference;
use firing_records::Recorded;
use kept_triples::Kept;
use soar_sym::{Sym, is_symbol};

/// Whether a firing counts for a goal.
pub fn counts_for(
    levels: &Kept,
    goal: Sym,
    depth: u32,
    recorded: &Recorded,
    added: &[Preference],
) -> bool
    ensures { result ≡ told.counts_as_told (level_in_kept levels.now) added.now goal depth recorded.now }
{
    recorded.operator_kind
        && is_goal_of(recorded.goal, goal)
        && adds_locally(levels, depth, &recorded.firing, added)
}

fn is_goal_of(found: Option<Sym>, goal: Sym) -> bool
    ensures { result ≡ meaning.is_goal_of found goal }
{
    match found {
        Some(found) => is_symbol(found, goal),
        None => false,
    }
}
