ghost use Rattle.std.specs.Prelude.{◌≡◌, ◌≤◌, length, IfOk};
ghost use Rattle.soar_rule.specs.Variables.{bound_variables};
ghost use Rattle.defs_match.specs.Rules.{rule_seen};
ghost use Rattle.soar_fire.specs.Fires.{made_of, Fires, IsFirable, AreWishesKnown};
ghost use Rattle.soar_fire.specs.Growth.{Grown, LettersKeep};

use crate::action::made_of;
use crate::bindings::bindings_of;
use crate::fault::FireFault;
use crate::scene::Scene;
use defs_match::{Instance, Rule};
use defs_soar::{Goal, Made};
use soar_sym::{Letters, List, SymTable};
use std::alloc::Global;

/// Takes the actions of a rule for an instance of it, in their order, in each the identifier, attribute,
/// value and referent (Soar manual, chapter 3, right-hand sides). `goals` are those before the wave.
///
/// New words join the table and new identifiers take the next numbers of their letters; of a firing
/// that is refused some may have.
#[tactic(auto, using(crate::proofs::GrowthLemmas::same_letters, crate::proofs::GrowthLemmas::same_table))]
pub fn fire(
    alloc: Global,
    table: &mut SymTable,
    letters: &mut Letters,
    goals: &List<Goal>,
    rule: &Rule,
    instance: &Instance,
) -> Result<Made, FireFault>
    requires known { IsFirable table.old (rule_seen rule.now) instance.now }
    requires binds { length instance.now.binds ≡ length (bound_variables (rule_seen rule.now).production.conditions) }
    ensures answer { Fires table.new letters.new (made_of table.old letters.old goals.now (rule_seen rule.now) instance.now) result }
    ensures known { IfOk result (λ made. AreWishesKnown table.new made.wishes) }
    ensures grown { length table.old ≤ length table.new }
    ensures words { Grown table.old table.new }
    ensures letters { LettersKeep letters.old letters.new }
{
    let production = &*rule.production;
    let mut bindings = bindings_of(
        alloc,
        production.conds.as_slice(),
        instance.binds.as_slice(),
    )?;
    let scene = Scene {
        alloc,
        vars: production.vars.as_slice(),
        goals: goals.as_slice(),
    };
    let actions = production.actions.as_slice();
    made_of(&scene, actions, &mut bindings, table, letters)
}
