//! How productions are written and read: their grammar, what a text means, and the text of each.
#![tactic(auto)]

ghost use Rattle.defs_read.specs.Worked as worked;

/// Texts of productions that were read by hand.
pub fn worked_readings()
    ensures fields { worked.Fields }
    ensures negations { worked.Negations }
    ensures no_arrow { worked.NoArrow }
    ensures no_value { worked.NoValue }
    ensures two_flags { worked.TwoFlags }
    ensures wrong_calls { worked.WrongCalls }
    ensures state_in_bars { worked.StateInBars }
{}
