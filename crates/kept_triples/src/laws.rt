// What the levels are.
ghost use Rattle.kept_triples.specs.Kept.{KeptLevelsAreLevels};

use level_change::levels_are_told;
use settling_laws::levels_are_local;

/// The levels that are told are those over all that is held.
pub fn kept_levels_are_levels()
    ensures { KeptLevelsAreLevels }
{
    levels_are_told();
    levels_are_local();
}
