ghost use Rattle.decision_walk.specs.First.{WalkKeepsFirst};
ghost use Rattle.decision_walk.specs.Known.{WalkStaysKnown};
ghost use Rattle.decision_walk.specs.Makers.{WalkKeepsMakers};

/// A walk leaves the first goals, and names no symbol and no firing that neither these nor the rows name.
pub fn walks_keep_goals()
    ensures first { WalkKeepsFirst }
    ensures known { WalkStaysKnown }
    ensures makers { WalkKeepsMakers }
{}
