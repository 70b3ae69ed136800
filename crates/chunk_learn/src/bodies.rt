ghost use Rattle.std.specs.Prelude.{◌≡◌};
ghost use Rattle.soar_rule.specs.Equality as meaning;
ghost use Rattle.soar_rule.specs.Productions.{production_seen};

use crate::actions::same_actions;
use chunk_negations::same_conds;
use soar_rule::{Production, Support};

/// Whether two productions have the same support, conditions and actions, each in the same order.
#[tactic(auto, using(crate::proofs::BodyLemmas::actions_are))]
pub fn same_body(a: &Production, b: &Production) -> bool
    ensures { result ≡ meaning.same_body (production_seen a.now) (production_seen b.now) }
{
    support_place(a.support) == support_place(b.support)
        && same_conds(a.conds.as_slice(), b.conds.as_slice())
        && same_actions(a.actions.as_slice(), b.actions.as_slice())
}

fn support_place(support: Support) -> u8
    ensures { result ≡ meaning.support_place support }
{
    match support {
        Support::Unset => 0,
        Support::Operator => 1,
        Support::Instance => 2,
    }
}
