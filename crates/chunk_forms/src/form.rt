ghost use Rattle.std.specs.Prelude.{length, IsTrue};
ghost use Rattle.soar_rule.specs.Below.{actions_below, conds_below};

use soar_rule::{Action, Cond};
use soar_sym::{List, Text};

/// A rule without a name, and the names of its variables, without brackets, in the order of their numbers.
#[derive(Drop)]
pub struct Form {
    pub conds: List<Cond>,
    pub actions: List<Action>,
    pub names: List<Text>,
    ghost conds_closed: { IsTrue (conds_below (length names) conds) },
    ghost actions_closed: { IsTrue (actions_below (length names) actions) },
}
