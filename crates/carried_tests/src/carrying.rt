ghost use Rattle.std.specs.Prelude.{◌≡◌, filter, map, IfOk};
ghost use Rattle.carried_tests.specs.Seen.{carried_seen};
ghost use Rattle.defs_soar.specs.CarriedTests.{carried_tests, is_carried};
ghost use Rattle.defs_soar.specs.History.{chain_seen};

use crate::firings::add_steps;
use chain_identifiers::Identifiers;
use soar_rule::Relation;
use soar_sym::{NoMemory, Sym, is_identifier};
use std::alloc::Global;

/// A relation that a step tested, with the symbols of its field and of its referent.
#[derive(Clone, Copy)]
pub struct CarriedTest {
    pub relation: Relation,
    pub field: Sym,
    pub referent: Sym,
}

/// The `<>` and `<=>` tests of a chain that a learned rule takes over, in order of firing, condition, field and test
/// (Soar manual, chapter 4, chunking).
pub fn carried(alloc: Global, told: &Identifiers<'_>) -> Result<Vec<CarriedTest>, NoMemory>
    ensures { IfOk result (λ tests. map carried_seen tests.items ≡ carried_tests (chain_seen told.now.chain.now) told.now.depth) }
{
    let mut tests = Vec::new(alloc);
    add_steps(alloc, &mut tests, told.chain.steps.as_slice())?;
    keep_carried(told, &mut tests);
    Ok(tests)
}

/// Leaves those out that a learned rule does not take over.
fn keep_carried(told: &Identifiers<'_>, tests: &mut Vec<CarriedTest>)
    ensures { map carried_seen tests.new.items ≡ filter (is_carried (chain_seen told.now.chain.now) told.now.depth) (map carried_seen tests.old.items) }
{
    tests.retain(|test| is_carried(told, *test));
}

/// Whether a side is an identifier, and neither side is the chain's own affair.
fn is_carried(told: &Identifiers<'_>, test: CarriedTest) -> bool
    ensures { result ≡ is_carried (chain_seen told.now.chain.now) told.now.depth (carried_seen test) }
{
    (is_identifier(test.field) || is_identifier(test.referent))
        && (!told.is_inner(test.field) && !told.is_inner(test.referent))
}
