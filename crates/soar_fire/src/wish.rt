// What an action asks for.
ghost use Rattle.std.specs.Prelude.{IfOk, IfSome, OnOk};
ghost use Rattle.soar_sym.specs.Words.{IsKnown};
ghost use Rattle.soar_rule.specs.Productions.{preference_seen, value_seen, makes};
ghost use Rattle.soar_rule.specs.Symbols.{constants_of_action, constants_of_atom, constants_of_referent};
ghost use Rattle.soar_rule.specs.Variables.{referent_value};
ghost use Rattle.defs_soar.specs.Firing.{referent_of};
ghost use Rattle.soar_fire.specs.ActionOutcomes.{identifier_only, referent_outcome, wish_outcome};
ghost use Rattle.soar_fire.specs.Growth.{OnlyRise, OnlyGains};
ghost use Rattle.soar_fire.specs.Known.{Knows, bound_symbols, symbols_of_wish};
ghost use Rattle.soar_fire.specs.Outcomes.{atom_outcome, standing, then_on, Answers};

use crate::fault::FireFault;
use crate::judging::{is_identifier, judged, kind_of};
use crate::scene::Scene;
use crate::value::{atom_of_action, evaluated};
use defs_soar::{DropCause, Wish};
use soar_rule::{Atom, Pref, Value};
use soar_sym::{Letters, Sym, SymTable};

/// The parts of an action that makes a preference.
#[derive(Clone, Copy)]
pub struct Asked<'a> {
    pub id: Atom,
    pub attr: &'a Value,
    pub value: &'a Value,
    pub pref: &'a Pref,
}

/// The identifier of an action.
fn identifier_of(
    scene: &Scene<'_>,
    atom: Atom,
    bindings: &mut Vec<(u32, Sym)>,
    table: &SymTable,
    letters: &mut Letters,
) -> Result<Result<Sym, DropCause>, FireFault>
    requires bound { Knows table.now (bound_symbols bindings.old.items) }
    requires constants { Knows table.now (constants_of_atom atom) }
    ensures answer { Answers (then_on (atom_outcome scene.now.vars.now atom (standing bindings.old.items table.now letters.old)) identifier_only) (standing bindings.new.items table.now letters.new) result }
    ensures known { IfOk result (λ r. IfOk r (λ s. IsKnown table.now s)) }
    ensures bound { OnOk result (Knows table.now (bound_symbols bindings.new.items)) }
    ensures letters { OnlyRise letters.old letters.new }
{
    let symbol = atom_of_action(scene, atom, bindings, table, letters)?;
    if is_identifier(symbol) {
        Ok(Ok(symbol))
    } else {
        Ok(Err(DropCause::NotAnIdentifier))
    }
}

/// The referent, where the preference has one.
#[tactic(auto, using(crate::proofs::GrowthLemmas::gains_none))]
fn evaluated_referent(
    scene: &Scene<'_>,
    pref: &Pref,
    bindings: &mut Vec<(u32, Sym)>,
    table: &mut SymTable,
    letters: &mut Letters,
) -> Result<Result<Option<Sym>, DropCause>, FireFault>
    requires bound { Knows table.old (bound_symbols bindings.old.items) }
    requires constants { Knows table.old (constants_of_referent (referent_value (preference_seen pref.now))) }
    ensures answer { Answers (referent_outcome scene.now.vars.now (referent_of (preference_seen pref.now)) (standing bindings.old.items table.old letters.old)) (standing bindings.new.items table.new letters.new) result }
    ensures known { IfOk result (λ r. IfOk r (λ o. IfSome o (λ s. IsKnown table.new s))) }
    ensures bound { OnOk result (Knows table.new (bound_symbols bindings.new.items)) }
    ensures gains { OnlyGains table.old letters.old table.new letters.new }
{
    match pref {
        Pref::Better(value) | Pref::Worse(value) | Pref::IndifferentTo(value) => {
            match evaluated(scene, value, bindings, table, letters)? {
                Ok(symbol) => Ok(Ok(Some(symbol))),
                Err(cause) => Ok(Err(cause)),
            }
        }
        _ => Ok(Ok(None)),
    }
}

/// The identifier, and whether it is one, then attribute, value and referent.
pub fn wished(
    scene: &Scene<'_>,
    asked: &Asked<'_>,
    bindings: &mut Vec<(u32, Sym)>,
    table: &mut SymTable,
    letters: &mut Letters,
) -> Result<Result<Wish, DropCause>, FireFault>
    requires bound { Knows table.old (bound_symbols bindings.old.items) }
    requires constants { Knows table.old (constants_of_action (makes asked.now.id (value_seen asked.now.attr.now) (value_seen asked.now.value.now) (preference_seen asked.now.pref.now))) }
    ensures answer { Answers (wish_outcome scene.now.vars.now scene.now.goals.now asked.now.id (value_seen asked.now.attr.now) (value_seen asked.now.value.now) (preference_seen asked.now.pref.now) (standing bindings.old.items table.old letters.old)) (standing bindings.new.items table.new letters.new) result }
    ensures known { IfOk result (λ r. IfOk r (λ w. Knows table.new (symbols_of_wish w))) }
    ensures bound { OnOk result (Knows table.new (bound_symbols bindings.new.items)) }
    ensures gains { OnlyGains table.old letters.old table.new letters.new }
{
    let id = match identifier_of(scene, asked.id, bindings, table, letters)? {
        Ok(id) => id,
        Err(cause) => return Ok(Err(cause)),
    };
    let attr = match evaluated(scene, asked.attr, bindings, table, letters)? {
        Ok(attr) => attr,
        Err(cause) => return Ok(Err(cause)),
    };
    let value = match evaluated(scene, asked.value, bindings, table, letters)? {
        Ok(value) => value,
        Err(cause) => return Ok(Err(cause)),
    };
    let referent = match evaluated_referent(scene, asked.pref, bindings, table, letters)? {
        Ok(referent) => referent,
        Err(cause) => return Ok(Err(cause)),
    };
    let kind = kind_of(asked.pref, referent);
    Ok(judged(
        scene.goals,
        Wish {
            id,
            attr,
            value,
            kind,
            referent,
        },
    ))
}
