// One form for productions that differ in names alone.
ghost use Rattle.std.specs.Prelude.{◌≡◌, IfOk, OnOk, map};
ghost use Rattle.soar_rule.specs.Alike.{variables_in};
ghost use Rattle.soar_rule.specs.Canonical as canonical;
ghost use Rattle.soar_rule.specs.Conditions.{conditions};
ghost use Rattle.soar_rule.specs.Productions.{action_seen, production_seen};
ghost use Rattle.soar_rule.specs.Variables.{with_each};

use crate::numbering::Numbering;
use crate::occurrence::{meet_actions, meet_conds};
use crate::production::{Kind, Production};
use crate::renumbering::{renumber_actions, renumber_conds};
use soar_sym::{NoMemory, Sym};
use std::alloc::Global;

/// The form that two productions share exactly where they differ only in name, documentation, kind, and the
/// names and numbers of their variables.
///
/// Variables are numbered by first occurrence, conditions before actions, and named 1, 2 and so on. The name
/// is 0, there is no documentation, and the kind is `User`.
pub fn canonical(alloc: Global, production: &Production) -> Result<Production, NoMemory>
    ensures { IfOk result (λ form. production_seen form ≡ canonical.canonical (production_seen production.now)) }
{
    let mut numbering = Numbering::new(alloc);
    meet_all(&mut numbering, production)?;
    form_by(alloc, production, &numbering)
}

/// Meets the variables of a production, conditions before actions.
#[tactic(auto, using(crate::proofs::OccurrenceLemmas::each_of_both))]
fn meet_all(numbering: &mut Numbering, production: &Production) -> Result<(), NoMemory>
    ensures { OnOk result (numbering.new.order ≡ with_each numbering.old.order (variables_in (production_seen production.now))) }
{
    meet_conds(numbering, production.conds.as_slice())?;
    meet_actions(numbering, production.actions.as_slice())
}

/// The form by the numbers of the variables that were met.
fn form_by(
    alloc: Global,
    production: &Production,
    numbering: &Numbering,
) -> Result<Production, NoMemory>
    requires { numbering.now.order ≡ canonical.in_order_of_occurrence (conditions production.now.conds) (map action_seen production.now.actions) }
    ensures { IfOk result (λ form. production_seen form ≡ canonical.canonical (production_seen production.now)) }
{
    let vars = numbering.names(alloc)?;
    let conds = renumber_conds(Some(numbering), production.conds.as_slice(), alloc)?;
    let actions = renumber_actions(Some(numbering), production.actions.as_slice(), alloc)?;
    Ok(Production {
        name: Sym::Int(0),
        doc: None,
        kind: Kind::User,
        support: production.support,
        vars,
        conds,
        actions,
    })
}
