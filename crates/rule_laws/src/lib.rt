//! What checking a production comes to, and what its canonical form tells.
#![tactic(auto)]

ghost use Rattle.soar_rule.specs.Laws as laws;

/// What is checked is in match order for good: its conditions are those of the production, each is ready where it
/// stands, and neither checking once more nor other names and numbers of variables change it.
pub fn checked_is_in_order()
    ensures stays { laws.CheckedStays }
    ensures bound { laws.CheckedIsBound }
    ensures whole { laws.CheckedIsWhole }
    ensures renumbered { laws.RenumberedStays }
{}

/// Two productions have one canonical form exactly where they differ only in name, documentation, kind, and names
/// and numbers of variables.
pub fn canonical_form_tells()
    ensures alike { laws.AlikeAreOne }
    ensures one { laws.OneIsAlike }
{}
