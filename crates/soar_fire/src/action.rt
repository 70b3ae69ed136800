// Actions, one after the other.
ghost use Rattle.std.specs.Prelude.{◌≡◌, ◌≤◌, ◌+◌, ◌∷◌, ◌++◌, [], length, map, IfOk, IfErr, OnOk};
ghost use Rattle.soar_rule.specs.Productions.{action_seen, preference_seen, value_seen, values_of, makes, writes};
ghost use Rattle.soar_rule.specs.Symbols.{constants_of_action};
ghost use Rattle.defs_soar.specs.Functions.{joined};
ghost use Rattle.soar_fire.specs.ActionOutcomes.{action_outcome, actions_outcome, or_dropped, wish_outcome, with_dropped, with_wish, with_writing, nothing_made};
ghost use Rattle.soar_fire.specs.Growth.{OnlyGains};
ghost use Rattle.soar_fire.specs.Known.{Knows, KnowsWishes, bound_symbols, constants_of_actions};
ghost use Rattle.soar_fire.specs.Outcomes.{standing, values_outcome, Finds, Leaves};

use crate::fault::FireFault;
use crate::plain::push_joined;
use crate::scene::Scene;
use crate::value::evaluated_all;
use crate::wish::{Asked, wished};
use defs_soar::{DropCause, Dropped, Made};
use soar_rule::{Action, Value};
use soar_sym::{Letters, List, Sym, SymTable, Text};
use std::alloc::AllocError;

/// A place beyond 2^32 - 1 is told as that.
fn with_dropped(made: &mut Made, place: usize, cause: DropCause) -> Result<(), AllocError>
    ensures { OnOk result (made.new ≡ with_dropped place cause made.old) }
{
    made.dropped.push(Dropped {
        action: place.min(u32::MAX as usize) as u32,
        cause,
    })
}

/// Adds the preference that an action makes, or drops the action at its place.
fn make(
    scene: &Scene<'_>,
    asked: &Asked<'_>,
    place: usize,
    made: &mut Made,
    bindings: &mut Vec<(u32, Sym)>,
    table: &mut SymTable,
    letters: &mut Letters,
) -> Result<(), FireFault>
    requires bound { Knows table.old (bound_symbols bindings.old.items) }
    requires constants { Knows table.old (constants_of_action (makes asked.now.id (value_seen asked.now.attr.now) (value_seen asked.now.value.now) (preference_seen asked.now.pref.now))) }
    requires wishes { KnowsWishes table.old made.old.wishes }
    ensures answer { Leaves (or_dropped place made.old (with_wish made.old) (wish_outcome scene.now.vars.now scene.now.goals.now asked.now.id (value_seen asked.now.attr.now) (value_seen asked.now.value.now) (preference_seen asked.now.pref.now) (standing bindings.old.items table.old letters.old))) made.new (standing bindings.new.items table.new letters.new) result }
    ensures wishes { OnOk result (KnowsWishes table.new made.new.wishes) }
    ensures bound { OnOk result (Knows table.new (bound_symbols bindings.new.items)) }
    ensures gains { OnlyGains table.old letters.old table.new letters.new }
{
    match wished(scene, asked, bindings, table, letters)? {
        Ok(wish) => made.wishes.push(wish)?,
        Err(cause) => with_dropped(made, place, cause)?,
    }
    Ok(())
}

/// Adds the plain texts of values, or drops the action at its place.
fn write(
    scene: &Scene<'_>,
    values: &[Value],
    place: usize,
    made: &mut Made,
    bindings: &mut Vec<(u32, Sym)>,
    table: &mut SymTable,
    letters: &mut Letters,
) -> Result<(), FireFault>
    requires bound { Knows table.old (bound_symbols bindings.old.items) }
    requires constants { Knows table.old (constants_of_action (writes (map value_seen values.now))) }
    requires wishes { KnowsWishes table.old made.old.wishes }
    ensures answer { Leaves (or_dropped place made.old (with_writing made.old) (values_outcome scene.now.vars.now (values_of (map value_seen values.now)) (standing bindings.old.items table.old letters.old))) made.new (standing bindings.new.items table.new letters.new) result }
    ensures wishes { OnOk result (KnowsWishes table.new made.new.wishes) }
    ensures bound { OnOk result (Knows table.new (bound_symbols bindings.new.items)) }
    ensures gains { OnlyGains table.old letters.old table.new letters.new }
{
    match evaluated_all(scene, values, bindings, table, letters)? {
        Ok(symbols) => push_joined(&mut made.texts, table, symbols.as_slice())?,
        Err(cause) => with_dropped(made, place, cause)?,
    }
    Ok(())
}

/// Takes an action at its place, from 1.
#[tactic(auto, using(crate::proofs::GrowthLemmas::gains_none))]
fn with_action(
    scene: &Scene<'_>,
    action: &Action,
    place: usize,
    made: &mut Made,
    bindings: &mut Vec<(u32, Sym)>,
    table: &mut SymTable,
    letters: &mut Letters,
) -> Result<(), FireFault>
    requires bound { Knows table.old (bound_symbols bindings.old.items) }
    requires constants { Knows table.old (constants_of_action (action_seen action.now)) }
    requires wishes { KnowsWishes table.old made.old.wishes }
    ensures answer { Leaves (action_outcome scene.now.vars.now scene.now.goals.now place (action_seen action.now) made.old (standing bindings.old.items table.old letters.old)) made.new (standing bindings.new.items table.new letters.new) result }
    ensures wishes { OnOk result (KnowsWishes table.new made.new.wishes) }
    ensures bound { OnOk result (Knows table.new (bound_symbols bindings.new.items)) }
    ensures gains { OnlyGains table.old letters.old table.new letters.new }
{
    match action {
        Action::Make {
            id,
            attr,
            value,
            pref,
        } => {
            let asked = Asked {
                id: *id,
                attr,
                value,
                pref,
            };
            make(scene, &asked, place, made, bindings, table, letters)
        }
        Action::Write(values) => write(
            scene,
            values.as_slice(),
            place,
            made,
            bindings,
            table,
            letters,
        ),
        Action::Halt => {
            made.halted = true;
            Ok(())
        }
    }
}

/// What actions make.
pub fn made_of(
    scene: &Scene<'_>,
    actions: &[Action],
    bindings: &mut Vec<(u32, Sym)>,
    table: &mut SymTable,
    letters: &mut Letters,
) -> Result<Made, FireFault>
    requires bound { Knows table.old (bound_symbols bindings.old.items) }
    requires constants { Knows table.old (constants_of_actions (map action_seen actions.now)) }
    ensures answer { Finds (actions_outcome scene.now.vars.now scene.now.goals.now 1 (map action_seen actions.now) nothing_made (standing bindings.old.items table.old letters.old)) (standing bindings.new.items table.new letters.new) result }
    ensures wishes { IfOk result (λ made. KnowsWishes table.new made.wishes) }
    ensures gains { OnlyGains table.old letters.old table.new letters.new }
{
    let mut made = Made {
        wishes: List::new(scene.alloc),
        texts: Text::new(scene.alloc),
        halted: false,
        dropped: List::new(scene.alloc),
    };
    with_actions(scene, actions, &mut made, bindings, table, letters)?;
    Ok(made)
}

/// Takes actions in turn.
#[tactic(auto, using(crate::proofs::GrowthLemmas::gains_none))]
fn with_actions(
    scene: &Scene<'_>,
    actions: &[Action],
    made: &mut Made,
    bindings: &mut Vec<(u32, Sym)>,
    table: &mut SymTable,
    letters: &mut Letters,
) -> Result<(), FireFault>
    requires bound { Knows table.old (bound_symbols bindings.old.items) }
    requires constants { Knows table.old (constants_of_actions (map action_seen actions.now)) }
    requires wishes { KnowsWishes table.old made.old.wishes }
    ensures answer { Leaves (actions_outcome scene.now.vars.now scene.now.goals.now 1 (map action_seen actions.now) made.old (standing bindings.old.items table.old letters.old)) made.new (standing bindings.new.items table.new letters.new) result }
    ensures wishes { OnOk result (KnowsWishes table.new made.new.wishes) }
    ensures gains { OnlyGains table.old letters.old table.new letters.new }
{
    let mut place: usize = 0;
    'actions: for action in actions {
        place += 1;
        with_action(scene, action, place, made, bindings, table, letters)?;
    }
    Ok(())
}
