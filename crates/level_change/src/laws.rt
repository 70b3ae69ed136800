// What a graph tells.
ghost use Rattle.level_change.specs.Told.{LevelsAreTold, StandsByCounts};

/// The levels of a graph that stands for triples and goals are those that are defined, and it stands for all triples of the same counts.
pub fn levels_are_told()
    ensures levels { LevelsAreTold }
    ensures counts { StandsByCounts }
{}
