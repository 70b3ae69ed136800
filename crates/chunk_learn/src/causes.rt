// Why an explanation gives a justification and no chunk.
ghost use Rattle.std.specs.Prelude.{◌≡◌, flat_map, map, IfOk};
ghost use Rattle.std.specs.List.{list_any};
ghost use Rattle.std.specs.Option.{option_map};
ghost use Rattle.chunk_learn.specs.Told.{cause_of_form, cause_of_size, cause_of_use, cause_told, local_cause};
ghost use Rattle.defs_soar.specs.Architecture.{quiescence_word};
ghost use Rattle.defs_soar.specs.CandidateOf.{candidate_seen};
ghost use Rattle.defs_soar.specs.ChainIdentifiers.{firing_in};
ghost use Rattle.defs_soar.specs.History.{chain_seen, step_seen};
ghost use Rattle.defs_soar.specs.Outcome.{first_firing, uses_quiescence};
ghost use Rattle.defs_soar.specs.Ungrounded.{or_else};
ghost use Rattle.soar_rule.specs.Productions.{production_seen};
ghost use Rattle.soar_sym.specs.Equality.{symbol_eq};

use crate::sizes::too_large;
use chain_identifiers::Identifiers;
use chunk_negations::local_negation;
use defs_soar::{Candidate, Cause, Chain, Learning, Step, Used};
use soar_rule::Production;
use soar_sym::architecture::QUIESCENCE;
use soar_sym::{NoMemory, is_symbol};
use std::alloc::Global;

/// The first cause, by the settings, the explanation and the candidate.
pub fn cause_against(
    alloc: Global,
    c: &Candidate,
    told: &Identifiers<'_>,
    s: &Learning,
) -> Result<Option<Cause>, NoMemory>
    ensures { IfOk result (λ why. why ≡ cause_told (candidate_seen c.now) (chain_seen told.now.chain.now) told.now.depth s.now) }
{
    if !s.on {
        return Ok(Some(Cause::Off));
    }
    match local_cause(alloc, told, s)? {
        Some(why) => Ok(Some(why)),
        None => cause_of_explanation(c, told.chain),
    }
}

/// A local negation, where these are not allowed.
fn local_cause(
    alloc: Global,
    told: &Identifiers<'_>,
    s: &Learning,
) -> Result<Option<Cause>, NoMemory>
    ensures { IfOk result (λ why. why ≡ local_cause (chain_seen told.now.chain.now) told.now.depth s.now) }
{
    if s.local_negations {
        return Ok(None);
    }
    match local_negation(alloc, told)? {
        Some(number) => Ok(Some(Cause::LocalNegation(number))),
        None => Ok(None),
    }
}

fn cause_of_explanation(c: &Candidate, chain: &Chain) -> Result<Option<Cause>, NoMemory>
    ensures { IfOk result (λ why. why ≡ or_else (cause_of_use (chain_seen chain.now)) (cause_of_form (candidate_seen c.now))) }
{
    match first_quiescence(chain.steps.as_slice()) {
        Some(number) => Ok(Some(Cause::Quiescence(number))),
        None => cause_of_form(c),
    }
}

/// The number of the first firing that used an element of the attribute `quiescence`.
fn first_quiescence(steps: &[Step]) -> Option<u64>
    ensures { result ≡ first_firing uses_quiescence (flat_map firing_in (map step_seen steps.now)) }
{
    'steps: for step in steps {
        if let Step::Fire(firing) = step {
            if has_quiescence(firing.used.as_slice()) {
                return Some(firing.number);
            }
        }
    }
    None
}

fn has_quiescence(used: &[Used]) -> bool
    ensures { result ≡ list_any (λ u. symbol_eq u.element.attr quiescence_word) used.now }
{
    'used: for one in used {
        if is_symbol(one.element.attr, QUIESCENCE) {
            return true;
        }
    }
    false
}

/// An identifier without a variable, or a form that is too large.
fn cause_of_form(c: &Candidate) -> Result<Option<Cause>, NoMemory>
    ensures { IfOk result (λ why. why ≡ cause_of_form (candidate_seen c.now)) }
{
    match c.ungrounded {
        Some(symbol) => Ok(Some(Cause::Ungrounded(symbol))),
        None => cause_of_size(&c.general),
    }
}

fn cause_of_size(general: &Option<Production>) -> Result<Option<Cause>, NoMemory>
    ensures { IfOk result (λ why. why ≡ cause_of_size (option_map production_seen general.now)) }
{
    match general {
        Some(production) => match too_large(production)? {
            Some(size) => Ok(Some(Cause::TooLarge(size))),
            None => Ok(None),
        },
        None => Ok(None),
    }
}
