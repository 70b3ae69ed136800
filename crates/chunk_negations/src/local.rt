ghost use Rattle.std.specs.Prelude.{◌≡◌, [], ◌∷◌, flat_map, map, IfOk};
ghost use Rattle.std.specs.List.{list_all};
ghost use Rattle.defs_soar.specs.ChainIdentifiers.{firing_in, firings_of};
ghost use Rattle.defs_soar.specs.History.{chain_seen, firing_seen, step_seen};
ghost use Rattle.defs_soar.specs.Negations.{has_local_negation, is_about_higher, negations_in};
ghost use Rattle.defs_soar.specs.Outcome.{first_firing};
ghost use Rattle.soar_rule.specs.Conditions.{conditions};

use crate::higher::is_about_higher;
use chain_identifiers::{Identifiers, bindings_of};
use defs_soar::{Firing, Step};
use soar_rule::Cond;
use soar_sym::{NoMemory, Sym};
use std::alloc::Global;

/// The number of the first firing with a negation that is not about higher goals alone (Soar manual, chapter 4, local
/// negations).
pub fn local_negation(alloc: Global, told: &Identifiers<'_>) -> Result<Option<u64>, NoMemory>
    ensures { IfOk result (λ found. found ≡ first_firing (has_local_negation (chain_seen told.now.chain.now) told.now.depth) (firings_of (chain_seen told.now.chain.now))) }
{
    local_in_steps(alloc, told, told.chain.steps.as_slice())
}

fn local_in_steps(
    alloc: Global,
    told: &Identifiers<'_>,
    steps: &[Step],
) -> Result<Option<u64>, NoMemory>
    ensures { IfOk result (λ found. found ≡ first_firing (has_local_negation (chain_seen told.now.chain.now) told.now.depth) (flat_map firing_in (map step_seen steps.now))) }
{
    'steps: for step in steps {
        let found = local_in_step(alloc, told, step)?;
        if found.is_some() {
            return Ok(found);
        }
    }
    Ok(None)
}

fn local_in_step(
    alloc: Global,
    told: &Identifiers<'_>,
    step: &Step,
) -> Result<Option<u64>, NoMemory>
    ensures { IfOk result (λ found. found ≡ first_firing (has_local_negation (chain_seen told.now.chain.now) told.now.depth) (firing_in (step_seen step.now))) }
{
    match step {
        Step::Fire(firing) => local_in_firing(alloc, told, firing),
        _ => Ok(None),
    }
}

fn local_in_firing(
    alloc: Global,
    told: &Identifiers<'_>,
    firing: &Firing,
) -> Result<Option<u64>, NoMemory>
    ensures { IfOk result (λ found. found ≡ first_firing (has_local_negation (chain_seen told.now.chain.now) told.now.depth) (firing_seen firing.now ∷ [])) }
{
    let bindings = bindings_of(alloc, firing)?;
    let conds = firing.rule.production.conds.as_slice();
    if are_superstate(alloc, told, bindings.as_slice(), conds)? {
        Ok(None)
    } else {
        Ok(Some(firing.number))
    }
}

/// Whether the negations among conditions are about higher goals alone.
fn are_superstate(
    alloc: Global,
    told: &Identifiers<'_>,
    bindings: &[(u32, Sym)],
    conds: &[Cond],
) -> Result<bool, NoMemory>
    ensures { IfOk result (λ all. all ≡ list_all (is_about_higher (chain_seen told.now.chain.now) told.now.depth bindings.now []) (negations_in (conditions conds.now))) }
{
    'conds: for cond in conds {
        if !is_superstate(alloc, told, bindings, cond)? {
            return Ok(false);
        }
    }
    Ok(true)
}

/// Whether a condition, where it is a negation, is about higher goals alone.
#[tactic(auto, using(crate::proofs::Lists::and_true))]
fn is_superstate(
    alloc: Global,
    told: &Identifiers<'_>,
    bindings: &[(u32, Sym)],
    cond: &Cond,
) -> Result<bool, NoMemory>
    ensures { IfOk result (λ all. all ≡ list_all (is_about_higher (chain_seen told.now.chain.now) told.now.depth bindings.now []) (negations_in (conditions (cond.now ∷ [])))) }
{
    match cond {
        Cond::Pos(_) => Ok(true),
        Cond::Neg(_) => Ok(is_about_higher(alloc, told, bindings, &[], cond)?),
        Cond::Conj(_) => Ok(is_about_higher(alloc, told, bindings, &[], cond)?),
    }
}
