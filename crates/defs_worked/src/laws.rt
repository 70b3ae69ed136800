ghost use Rattle.defs_soar.specs.Laws.{WalkKeepsTheFront, TakenAreReached, TakenAreGrounds};

/// The goals that a decision leaves are those at the front.
pub fn laws_of_decisions()
    ensures front { WalkKeepsTheFront }
{}

/// The grounds that a learned rule takes, in order, have identifiers with a variable, and are grounds.
pub fn laws_of_conditions()
    ensures reached { TakenAreReached }
    ensures grounds { TakenAreGrounds }
{}
