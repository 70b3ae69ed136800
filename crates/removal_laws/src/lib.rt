//! Laws of the goals that go: trimming and decisions cut the stack from its end.
#![tactic(auto)]

ghost use Rattle.removal_laws.specs.Apart as apart;
ghost use Rattle.removal_laws.specs.Nested as nested;
ghost use Rattle.removal_laws.specs.Alone as alone;

/// However often goals go, those that went are the last ones, and the first ones are left.
pub fn removals_are_nested()
    ensures removed { nested.RemovalsAreNested }
    ensures goals { nested.FirstGoalsAreLeft }
{}

/// Goals that stand below one another are listed in their order.
pub fn removals_alone()
    ensures { alone.RemovalsAlone }
{}

/// Where a decision cuts the stack, all goals below those that stay go.
pub fn cuts_remove()
    ensures { alone.CutsRemove }
{}

/// What is left after trimming is the same, whatever went before.
pub fn removals_apart()
    ensures { apart.RemovalsApart }
{}
