//! What a decision comes to, told by the outcome at a goal.
#![tactic(auto)]

ghost use Rattle.decision_laws.specs.OneGoal as one_goal;
ghost use Rattle.decision_laws.specs.Walks as walks;

/// The walk of a decision goes on, or ends, by the outcome at each goal. An agent with one goal decides by the outcome at
/// that, and keeps all that it holds.
pub fn decisions_follow_outcomes()
    ensures step { walks.WalkFollowsOutcomes }
    ensures one { walks.WalkOfOne }
    ensures decision { one_goal.DecisionOfOne }
    ensures nothing_below { one_goal.NothingIsBelow }
    ensures kept { one_goal.DecisionKeepsAll }
{}
