//! What a matcher is told of a step makes its elements those of working memory.
#![tactic(auto)]

ghost use Rattle.matching_laws.specs.Telling as laws;

/// A matcher that lets go of what went and takes in what came has the elements of the new working memory, which is
/// lawful.
pub fn changes_are_told()
    ensures told { laws.ChangesAreTold }
    ensures lawful { laws.RetaggedIsLawful }
{}
