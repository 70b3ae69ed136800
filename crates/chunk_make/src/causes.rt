// The first cause against the general form, whatever the settings (the order of causes is this engine's).
ghost use Rattle.std.specs.Prelude.{◌≡◌, flat_map, map, IfOk};
ghost use Rattle.std.specs.List.{list_any};
ghost use Rattle.chunk_make.specs.Drafts.{cause_of_forms, forms_of, forms_seen};
ghost use Rattle.defs_soar.specs.Architecture.{quiescence_word};
ghost use Rattle.defs_soar.specs.CandidateOf.{first_cause};
ghost use Rattle.defs_soar.specs.ChainIdentifiers.{firing_in, firings_of};
ghost use Rattle.defs_soar.specs.History.{chain_seen, step_seen};
ghost use Rattle.defs_soar.specs.Negations.{has_local_negation};
ghost use Rattle.defs_soar.specs.Outcome.{as_cause, first_firing, uses_quiescence};
ghost use Rattle.defs_soar.specs.Ungrounded.{or_else, ungrounded};
ghost use Rattle.defs_soar.specs.declared.learning.Cause.TheVariants as causes;
ghost use Rattle.soar_sym.specs.Equality.{symbol_eq};
ghost use Rattle.soar_sym.specs.Words.{Texts};

use crate::forms::Forms;
use crate::sizes::cause_of_size;
use chain_identifiers::Identifiers;
use chunk_negations::local_negation;
use defs_soar::{Cause, Step, Used};
use soar_sym::architecture::QUIESCENCE;
use soar_sym::{NoMemory, Sym, is_symbol};
use std::alloc::Global;

pub(crate) fn first_cause(
    alloc: Global,
    told: &Identifiers<'_>,
    forms: &Forms,
    missing: Option<Sym>,
) -> Result<Option<Cause>, NoMemory>
    ensures { (words : Texts) → forms_seen forms.now ≡ forms_of words (chain_seen told.now.chain.now) told.now.depth
        → missing ≡ ungrounded words (chain_seen told.now.chain.now) told.now.depth
        → IfOk result (λ cause. cause ≡ first_cause words (chain_seen told.now.chain.now) told.now.depth) }
{
    let early = cause_in_firings(alloc, told)?;
    if early.is_some() {
        return Ok(early);
    }
    let cause = cause_in_forms(forms, missing)?;
    Ok(cause)
}

/// A local negation, or a use of `^quiescence`.
fn cause_in_firings(alloc: Global, told: &Identifiers<'_>) -> Result<Option<Cause>, NoMemory>
    ensures { IfOk result (λ cause. cause
        ≡ or_else (as_cause causes.LocalNegation (first_firing (has_local_negation (chain_seen told.now.chain.now) told.now.depth) (firings_of (chain_seen told.now.chain.now))))
        (as_cause causes.Quiescence (first_firing uses_quiescence (firings_of (chain_seen told.now.chain.now))))) }
{
    match local_negation(alloc, told)? {
        Some(number) => Ok(Some(Cause::LocalNegation(number))),
        None => Ok(cause_of_quiescence(told.chain.steps.as_slice())),
    }
}

fn cause_of_quiescence(steps: &[Step]) -> Option<Cause>
    ensures { result ≡ as_cause causes.Quiescence (first_firing uses_quiescence (flat_map firing_in (map step_seen steps.now))) }
{
    match quiescence_use(steps) {
        Some(number) => Some(Cause::Quiescence(number)),
        None => None,
    }
}

/// The number of the first firing that used `^quiescence`.
fn quiescence_use(steps: &[Step]) -> Option<u64>
    ensures { result ≡ first_firing uses_quiescence (flat_map firing_in (map step_seen steps.now)) }
{
    'steps: for step in steps {
        if let Some(number) = quiescence_in(step) {
            return Some(number);
        }
    }
    None
}

fn quiescence_in(step: &Step) -> Option<u64>
    ensures { result ≡ first_firing uses_quiescence (firing_in (step_seen step.now)) }
{
    match step {
        Step::Fire(firing) if is_quiescence_used(firing.used.as_slice()) => Some(firing.number),
        _ => None,
    }
}

fn is_quiescence_used(used: &[Used]) -> bool
    ensures { result ≡ list_any (λ u. symbol_eq u.element.attr quiescence_word) used.now }
{
    'used: for one in used {
        if is_symbol(one.element.attr, QUIESCENCE) {
            return true;
        }
    }
    false
}

/// No state among the grounds, an identifier without a variable, or too many conditions or variables.
fn cause_in_forms(forms: &Forms, missing: Option<Sym>) -> Result<Option<Cause>, NoMemory>
    ensures { IfOk result (λ cause. cause ≡ cause_of_forms (forms_seen forms.now) missing) }
{
    match forms {
        Forms::Neither => Ok(Some(Cause::NoGrounds)),
        Forms::Literal(_) => Ok(cause_of_missing(missing)),
        Forms::Both(general, _) => cause_of_size(general),
    }
}

fn cause_of_missing(missing: Option<Sym>) -> Option<Cause>
    ensures { result ≡ as_cause causes.Ungrounded missing }
{
    match missing {
        Some(symbol) => Some(Cause::Ungrounded(symbol)),
        None => None,
    }
}
