//! The conflict set is in order of rule and tags, so none of its instances stands twice.
#![tactic(auto)]

ghost use Rattle.conflict_order.specs.Order as laws;

/// Rules in order of number over elements in order of tag have their instances in order, and without a rule the others stay.
pub fn conflict_sets_are_ordered()
    ensures order { laws.ConflictIsOrdered }
    ensures without { laws.RuleLeavesItsOwn }
{}
