ghost use Rattle.std.specs.Prelude.{◌≡◌, [], ◌∷◌, flat_map, map, IfOk, OnOk};
ghost use Rattle.std.specs.List.{list_any};
ghost use Rattle.chunk_negations.specs.Superstate.{superstate_of};
ghost use Rattle.defs_soar.specs.ChainIdentifiers.{firing_in};
ghost use Rattle.defs_soar.specs.History.{chain_seen, firing_seen, step_seen};
ghost use Rattle.defs_soar.specs.Negations.{bound_atom, negations_in, negations_taken_over, superstate_negations, with_own_from, without_repeats};
ghost use Rattle.soar_rule.specs.Conditions.{condition, conditions};
ghost use Rattle.soar_rule.specs.Equality.{condition_eq};
ghost use Rattle.soar_rule.specs.Renaming.{condition_with};

use crate::binding::Bound;
use crate::equality::same_cond;
use crate::higher::is_about_higher;
use crate::own::{with_own_from, with_own_variables};
use chain_identifiers::{Identifiers, bindings_of};
use condition_copies::cond_with;
use defs_soar::{Firing, Step};
use soar_rule::Cond;
use soar_sym::{List, NoMemory, Sym};
use std::alloc::Global;

/// The negations about higher goals, in order of firing and condition, with symbols in the places of bound variables
/// and own variables numbered from 0, without repeats.
#[tactic(auto, unfolding(defs_soar::specs::Negations::negations_taken_over))]
pub fn taken_over(alloc: Global, told: &Identifiers<'_>) -> Result<List<Cond>, NoMemory>
    ensures { IfOk result (λ negations. map condition negations ≡ negations_taken_over (chain_seen told.now.chain.now) told.now.depth) }
{
    let mut taken = List::new(alloc);
    take_of_steps(alloc, told, told.chain.steps.as_slice(), &mut taken)?;
    with_own_variables(alloc, taken.as_slice())
}

fn take_of_steps(
    alloc: Global,
    told: &Identifiers<'_>,
    steps: &[Step],
    taken: &mut List<Cond>,
) -> Result<(), NoMemory>
    ensures { OnOk result (map condition taken.new ≡ without_repeats (map condition taken.old) (flat_map (superstate_negations (chain_seen told.now.chain.now) told.now.depth) (flat_map firing_in (map step_seen steps.now)))) }
{
    'steps: for step in steps {
        take_of_step(alloc, told, step, taken)?;
    }
    Ok(())
}

#[tactic(auto, using(crate::proofs::TakingLemmas::taken_of_one))]
fn take_of_step(
    alloc: Global,
    told: &Identifiers<'_>,
    step: &Step,
    taken: &mut List<Cond>,
) -> Result<(), NoMemory>
    ensures { OnOk result (map condition taken.new ≡ without_repeats (map condition taken.old) (flat_map (superstate_negations (chain_seen told.now.chain.now) told.now.depth) (firing_in (step_seen step.now)))) }
{
    match step {
        Step::Fire(firing) => take_of_firing(alloc, told, firing, taken),
        _ => Ok(()),
    }
}

fn take_of_firing(
    alloc: Global,
    told: &Identifiers<'_>,
    firing: &Firing,
    taken: &mut List<Cond>,
) -> Result<(), NoMemory>
    ensures { OnOk result (map condition taken.new ≡ without_repeats (map condition taken.old) (superstate_negations (chain_seen told.now.chain.now) told.now.depth (firing_seen firing.now))) }
{
    let bindings = bindings_of(alloc, firing)?;
    let conds = firing.rule.production.conds.as_slice();
    take_of_conds(alloc, told, bindings.as_slice(), conds, taken)
}

fn take_of_conds(
    alloc: Global,
    told: &Identifiers<'_>,
    bindings: &[(u32, Sym)],
    conds: &[Cond],
    taken: &mut List<Cond>,
) -> Result<(), NoMemory>
    ensures { OnOk result (map condition taken.new ≡ without_repeats (map condition taken.old) (superstate_of (chain_seen told.now.chain.now) told.now.depth bindings.now (negations_in (conditions conds.now)))) }
{
    'conds: for cond in conds {
        take_of_cond(alloc, told, bindings, cond, taken)?;
    }
    Ok(())
}

fn take_of_cond(
    alloc: Global,
    told: &Identifiers<'_>,
    bindings: &[(u32, Sym)],
    cond: &Cond,
    taken: &mut List<Cond>,
) -> Result<(), NoMemory>
    ensures { OnOk result (map condition taken.new ≡ without_repeats (map condition taken.old) (superstate_of (chain_seen told.now.chain.now) told.now.depth bindings.now (negations_in (conditions (cond.now ∷ []))))) }
{
    match cond {
        Cond::Pos(_) => Ok(()),
        Cond::Neg(_) => take_negation(alloc, told, bindings, cond, taken),
        Cond::Conj(_) => take_negation(alloc, told, bindings, cond, taken),
    }
}

/// Takes a negation that is about higher goals.
fn take_negation(
    alloc: Global,
    told: &Identifiers<'_>,
    bindings: &[(u32, Sym)],
    negation: &Cond,
    taken: &mut List<Cond>,
) -> Result<(), NoMemory>
    ensures { OnOk result (map condition taken.new ≡ without_repeats (map condition taken.old) (superstate_of (chain_seen told.now.chain.now) told.now.depth bindings.now (condition negation.now ∷ []))) }
{
    if !is_about_higher(alloc, told, bindings, &[], negation)? {
        return Ok(());
    }
    let negation = over_symbols(alloc, bindings, negation)?;
    add_new(taken, negation)
}

/// The negation with symbols in the places of bound variables, and its own variables numbered from 0.
fn over_symbols(alloc: Global, bindings: &[(u32, Sym)], negation: &Cond) -> Result<Cond, NoMemory>
    ensures { IfOk result (λ other. condition other ≡ with_own_from 0 (condition_with (bound_atom bindings.now) (condition negation.now))) }
{
    let negation = cond_with(alloc, &Bound { bindings }, negation)?;
    with_own_from(alloc, 0, &negation)
}

/// Adds a negation that is not among the others.
fn add_new(taken: &mut List<Cond>, negation: Cond) -> Result<(), NoMemory>
    ensures { OnOk result (map condition taken.new ≡ without_repeats (map condition taken.old) (condition negation ∷ [])) }
{
    if is_taken(taken.as_slice(), &negation) {
        return Ok(());
    }
    taken.push(negation)?;
    Ok(())
}

fn is_taken(taken: &[Cond], negation: &Cond) -> bool
    ensures { result ≡ list_any (condition_eq (condition negation.now)) (map condition taken.now) }
{
    'taken: for other in taken {
        if same_cond(negation, other) {
            return true;
        }
    }
    false
}
