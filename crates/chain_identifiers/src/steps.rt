// What the steps of an explanation tell of a symbol.
ghost use Rattle.std.specs.Prelude.{◌≡◌, ◌&&◌, ◌==◌, flat_map, map};
ghost use Rattle.std.specs.List.{list_any};
ghost use Rattle.defs_soar.specs.ChainIdentifiers as meaning;
ghost use Rattle.defs_soar.specs.Dependencies.{is_new_in};
ghost use Rattle.defs_soar.specs.History.{firing_seen, step_seen};
ghost use Rattle.chain_identifiers.specs.Steps.{is_goal_of_firing};

use crate::newness::is_new_in;
use defs_soar::{Firing, How, Step, Used};
use soar_sym::architecture::SUPERSTATE;
use soar_sym::{Sym, is_symbol};

// ---- superstates

/// Whether a `^superstate` of the steps leads to the symbol.
pub(crate) fn is_superstate_in(steps: &[Step], symbol: Sym) -> bool
    ensures { result ≡ list_any (meaning.names_superstate symbol) (map step_seen steps.now) }
{
    'steps: for step in steps {
        if names_superstate(symbol, step) {
            return true;
        }
    }
    false
}

fn names_superstate(symbol: Sym, step: &Step) -> bool
    ensures { result ≡ meaning.names_superstate symbol (step_seen step.now) }
{
    match step {
        Step::Architecture(element) => {
            is_symbol(element.attr, SUPERSTATE) && is_symbol(element.value, symbol)
        }
        _ => false,
    }
}

// ---- what is new

/// Whether a firing of the steps made the symbol new.
#[tactic(auto, using(crate::proofs::StepLemmas::new_in_both))]
pub(crate) fn is_made_in(steps: &[Step], symbol: Sym) -> bool
    ensures { result ≡ list_any (λ f. is_new_in f symbol) (flat_map meaning.firing_in (map step_seen steps.now)) }
{
    'steps: for step in steps {
        if is_made_by(step, symbol) {
            return true;
        }
    }
    false
}

fn is_made_by(step: &Step, symbol: Sym) -> bool
    ensures { result ≡ list_any (λ f. is_new_in f symbol) (meaning.firing_in (step_seen step.now)) }
{
    match step {
        Step::Fire(firing) => is_new_in(firing, symbol),
        _ => false,
    }
}

// ---- goals

/// Whether a firing of this depth used the symbol as a state, otherwise than as a higher one.
#[tactic(auto, using(crate::proofs::StepLemmas::goal_in_both))]
pub(crate) fn is_goal_in(steps: &[Step], depth: u32, symbol: Sym) -> bool
    ensures { result ≡ list_any (is_goal_of_firing depth symbol) (flat_map meaning.firing_in (map step_seen steps.now)) }
{
    'steps: for step in steps {
        if is_goal_by(step, depth, symbol) {
            return true;
        }
    }
    false
}

fn is_goal_by(step: &Step, depth: u32, symbol: Sym) -> bool
    ensures { result ≡ list_any (is_goal_of_firing depth symbol) (meaning.firing_in (step_seen step.now)) }
{
    match step {
        Step::Fire(firing) => is_goal_of_firing(firing, depth, symbol),
        _ => false,
    }
}

fn is_goal_of_firing(firing: &Firing, depth: u32, symbol: Sym) -> bool
    ensures { result ≡ is_goal_of_firing depth symbol (firing_seen firing.now) }
{
    firing.depth == depth && is_state_in(firing.used.as_slice(), symbol)
}

fn is_state_in(used: &[Used], symbol: Sym) -> bool
    ensures { result ≡ list_any (meaning.is_state_use symbol) used.now }
{
    'used: for one in used {
        if is_state_use(symbol, one) {
            return true;
        }
    }
    false
}

fn is_state_use(symbol: Sym, used: &Used) -> bool
    ensures { result ≡ meaning.is_state_use symbol used.now }
{
    !is_upper(used.how) && used.element.of_state && is_symbol(used.element.id, symbol)
}

fn is_upper(how: How) -> bool
    ensures { result ≡ meaning.is_upper how }
{
    matches!(how, How::Upper)
}
