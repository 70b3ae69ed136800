//! Conditions whose variables are numbered by first occurrence, and the matches of those that they stand for.
#![tactic(auto)]

ghost use Rattle.net_laws.specs.Laws as laws;

/// The canonical form of a production has its matches: the same tags and the same symbols, in the same order.
/// Conditions with which productions begin alike are in their forms the same conditions, numbered by themselves.
pub fn canonical_forms_match()
    ensures instances { laws.CanonicalFormsMatch }
    ensures fronts { laws.FrontsAreNumbered }
{}
