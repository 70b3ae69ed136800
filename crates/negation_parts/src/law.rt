// What serving a negation comes to.
ghost use Rattle.negation_parts.specs.Law.{NegationServes, NegationIsKept};

use defs_match::negation_keeps;

/// What a negation computes from the changes of its parent and of its inside is the change of its rows.
pub fn negation_serves()
    ensures { NegationServes }
{}

/// What a negation keeps are the rows of the conditions with it.
pub fn negation_is_kept()
    ensures { NegationIsKept }
{
    negation_keeps();
}
