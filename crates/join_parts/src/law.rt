// What serving a join comes to.
ghost use Rattle.join_parts.specs.Law.{JoinServes, ConstantsLeaveOut, JoinRests, PrefixJoins, RowsAreOneEach};

use defs_match::rows_differ;

/// The rows and tags that a join computes tell the change of its rows, for whatever rows its parent had before.
pub fn join_serves()
    ensures { JoinServes }
{}

/// An element that the constants of a pattern leave out makes no row.
pub fn constants_leave_out()
    ensures { ConstantsLeaveOut }
{}

/// A join need not be served where its parent's rows stay and no element that its pattern's constants take comes or goes.
pub fn join_rests()
    ensures { JoinRests }
{}

/// The rows of a list with one positive condition more are the join of the rows of the list.
pub fn prefix_joins()
    ensures { PrefixJoins }
{}

/// The rows of a list of conditions have different tags.
pub fn rows_are_one_each()
    ensures { RowsAreOneEach }
{
    rows_differ();
}
