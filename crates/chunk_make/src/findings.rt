// What is found of an explanation, over which its forms are made.
ghost use Rattle.std.specs.Prelude.{◌≡◌, IfOk};
ghost use Rattle.std.specs.List.{list_any};
ghost use Rattle.chunk_make.specs.Findings.{AreFindings};
ghost use Rattle.chunk_make.specs.Known.{IsChainKnown};
ghost use Rattle.defs_soar.specs.History.{chain_seen};

use carried_tests::{CarriedTest, carried};
use chain_identifiers::Identifiers;
use chunk_grounds::ungrounded;
use chunk_negations::taken_over;
use condition_order::{GroundOrder, ordered};
use soar_rule::Cond;
use soar_sym::{List, NoMemory, Sym, SymTable};
use soar_wm::Element;
use std::alloc::Global;

/// Whether a state is among the grounds, the order of these, the tests and negations that are taken over, and the first
/// identifier without a variable.
#[derive(Drop)]
pub(crate) struct Findings {
    pub(crate) grounded: bool,
    pub(crate) order: GroundOrder,
    pub(crate) tests: Vec<CarriedTest>,
    pub(crate) negations: List<Cond>,
    pub(crate) missing: Option<Sym>,
}

pub(crate) fn find(
    alloc: Global,
    table: &SymTable,
    told: &Identifiers<'_>,
) -> Result<Findings, NoMemory>
    requires { IsChainKnown table.now (chain_seen told.now.chain.now) }
    ensures { IfOk result (λ found. AreFindings table.now (chain_seen told.now.chain.now) told.now.depth found) }
{
    let grounded = has_state(told.chain.grounds.as_slice());
    let order = ordered(alloc, table, &told.chain.grounds)?;
    let tests = carried(alloc, told)?;
    let negations = taken_over(alloc, told)?;
    let missing = ungrounded(
        alloc,
        told,
        order.places.as_slice(),
        tests.as_slice(),
        negations.as_slice(),
    )?;
    Ok(Findings {
        grounded,
        order,
        tests,
        negations,
        missing,
    })
}

/// Whether the identifier of an element is a state.
fn has_state(elements: &[Element]) -> bool
    ensures { result ≡ list_any (λ e. e.of_state) elements.now }
{
    'elements: for element in elements {
        if element.of_state {
            return true;
        }
    }
    false
}
