// The whole production.
ghost use Rattle.std.specs.Prelude.{◌≡◌};
ghost use Rattle.body_marks.specs.Fingerprint as meaning;
ghost use Rattle.soar_rule.specs.Productions.{production_seen};

use crate::actions::after_actions;
use crate::conditions::after_conditions;
use soar_rule::Production;

/// A number by shape and constants of the conditions and actions.
///
/// It is the same for productions whose canonical forms have the same body. It takes no memory.
#[tactic(auto, unfolding(crate::specs::Fingerprint::fingerprint))]
pub fn fingerprint(production: &Production) -> u64
    ensures { result ≡ meaning.fingerprint (production_seen production.now) }
{
    let mark = after_conditions(production.conds.as_slice(), 0);
    after_actions(production.actions.as_slice(), mark)
}
