// The order in which conditions are matched.
ghost use Rattle.std.specs.Prelude.{◌≡◌, IsTrue, IfOk};
ghost use Rattle.soar_rule.specs.Below.{conds_below};
ghost use Rattle.soar_rule.specs.Checking.{stop_of};
ghost use Rattle.soar_rule.specs.Conditions.{all_of, conditions};
ghost use Rattle.soar_rule.specs.MatchOrder.{taken_in_order};
ghost use Rattle.rule_check.specs.Marking.{AreMarked};
ghost use Rattle.rule_check.specs.Stops.{stop_seen};

use crate::marks::Marks;
use crate::taking::{InOrder, take_all};
use soar_rule::Cond;
use soar_sym::NoMemory;
use std::alloc::Global;

/// Takes again and again the first condition that is ready. Variables have numbers below `count`.
#[tactic(auto, unfolding(soar_rule::specs::MatchOrder::taken_in_order))]
pub(crate) fn take_in_order(
    alloc: Global,
    conds: &[Cond],
    count: usize,
) -> Result<InOrder, NoMemory>
    requires { IsTrue (conds_below count conds.now) }
    ensures order { IfOk result (λ taken. conditions taken.conds ≡ all_of (taken_in_order (conditions conds.now)).order) }
    ensures below { IfOk result (λ taken. IsTrue (conds_below count taken.conds)) }
    ensures bound { IfOk result (λ taken. AreMarked taken.bound.marks (taken_in_order (conditions conds.now)).bound) }
    ensures stop { IfOk result (λ taken. stop_seen taken.left ≡ stop_of (conditions conds.now) (taken_in_order (conditions conds.now))) }
{
    take_all(alloc, conds, false, Marks::new(alloc))
}
