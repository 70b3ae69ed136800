// The parts of an explanation, in the order in which they are gone through.
ghost use Rattle.std.specs.Prelude.{◌≡◌, flat_map, map, IfOk};
ghost use Rattle.carried_tests.specs.Seen.{carried_seen};
ghost use Rattle.chunk_grounds.specs.Ungrounded.{is_ungrounded};
ghost use Rattle.defs_soar.specs.History.{chain_seen};
ghost use Rattle.defs_soar.specs.Ungrounded.{first_without, led_to, or_else, symbols_of_carried, symbols_of_element, wrong_in_wishes};
ghost use Rattle.soar_rule.specs.Conditions.{condition};
ghost use Rattle.soar_rule.specs.Symbols.{constants_of_condition};

use crate::leading::led_to;
use crate::negations::first_in_conditions;
use crate::results::first_in_wishes;
use crate::unplaced::{first_in_elements, first_in_tests};
use carried_tests::CarriedTest;
use chain_identifiers::Identifiers;
use soar_rule::Cond;
use soar_sym::{NoMemory, Sym};
use soar_wm::Element;
use std::alloc::Global;

/// The first identifier of the grounds, the tests, the negations or the results that would need a variable and has none
/// among `places` (the cases and their order are this engine's).
pub fn ungrounded(
    alloc: Global,
    told: &Identifiers<'_>,
    places: &[Sym],
    tests: &[CarriedTest],
    negations: &[Cond],
) -> Result<Option<Sym>, NoMemory>
    ensures { IfOk result (λ found. found ≡ is_ungrounded told.now.chain.now places.now (map carried_seen tests.now) (map condition negations.now)) }
{
    match first_before_results(places, told.chain.grounds.as_slice(), tests, negations) {
        Some(symbol) => Ok(Some(symbol)),
        None => first_in_results(alloc, told, places),
    }
}

#[tactic(auto, using(crate::proofs::FirstLemmas::constants_of_list))]
fn first_before_results(
    places: &[Sym],
    grounds: &[Element],
    tests: &[CarriedTest],
    negations: &[Cond],
) -> Option<Sym>
    ensures { result ≡ or_else (first_without places.now (flat_map symbols_of_element grounds.now))
        (or_else (first_without places.now (flat_map symbols_of_carried (map carried_seen tests.now)))
        (first_without places.now (flat_map constants_of_condition (map condition negations.now)))) }
{
    if let Some(symbol) = first_in_elements(places, grounds) {
        return Some(symbol);
    }
    if let Some(symbol) = first_in_tests(places, tests) {
        return Some(symbol);
    }
    first_in_conditions(places, negations)
}

fn first_in_results(
    alloc: Global,
    told: &Identifiers<'_>,
    places: &[Sym],
) -> Result<Option<Sym>, NoMemory>
    ensures { IfOk result (λ found. found
        ≡ wrong_in_wishes (chain_seen told.now.chain.now) places.now (led_to places.now told.now.chain.now.results) told.now.chain.now.results) }
{
    let wishes = told.chain.results.as_slice();
    let led = led_to(alloc, places, wishes)?;
    Ok(first_in_wishes(told, places, led.as_slice(), wishes))
}
