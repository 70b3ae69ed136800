ghost use Rattle.std.specs.Prelude.{◌≡◌, [], IfOk, map};
ghost use Rattle.defs_soar.specs.Explanation.{chain_of};
ghost use Rattle.defs_soar.specs.History.{chain_seen, step_seen};
ghost use Rattle.defs_soar.specs.Standing.{AreFrom};
ghost use Rattle.chunk_back.specs.Chains.{chain_of_numbers, steps_of_numbers};
ghost use Rattle.chunk_back.specs.Makers.{MakersAreEarlier};

use crate::named::items_used;
use crate::parts::{Way, elements_used};
use crate::steps::{add_architecture, add_firings, add_items};
use crate::walk::explaining;
use defs_soar::{Chain, Keeps, Step};
use soar_sym::{List, NoMemory};
use soar_wm::Element;
use std::alloc::Global;

/// The superstate's elements on which firings rest, and what made their elements, and so on (Soar manual, chapter 4, backtracing).
pub fn grounds<K: Keeps>(alloc: Global, kept: &K, roots: &[u64]) -> Result<List<Element>, NoMemory>
    requires once { AreFrom (K.kept kept.now) (K.kept kept.now) }
    requires earlier { MakersAreEarlier (K.kept kept.now) }
    ensures { IfOk result (λ elements. elements ≡ (chain_of (K.kept kept.now) roots.now []).grounds) }
{
    let numbers = explaining(alloc, kept, roots)?;
    elements_used(alloc, kept, numbers.as_slice(), Way::Upper)
}

/// The explanation of firings: what their elements were made by, and so on, back to the superstate's elements
/// (Soar manual, chapter 4, backtracing).
pub fn backtrace<K: Keeps>(alloc: Global, kept: &K, roots: &[u64]) -> Result<Chain, NoMemory>
    requires once { AreFrom (K.kept kept.now) (K.kept kept.now) }
    requires earlier { MakersAreEarlier (K.kept kept.now) }
    ensures { IfOk result (λ chain. chain_seen chain ≡ chain_of (K.kept kept.now) roots.now []) }
{
    let numbers = explaining(alloc, kept, roots)?;
    chain_of_numbers(alloc, kept, numbers.as_slice())
}

fn chain_of_numbers<K: Keeps>(alloc: Global, kept: &K, numbers: &[u64]) -> Result<Chain, NoMemory>
    requires { AreFrom (K.kept kept.now) (K.kept kept.now) }
    ensures { IfOk result (λ chain. chain_seen chain ≡ chain_of_numbers (K.kept kept.now) numbers.now) }
{
    let grounds = elements_used(alloc, kept, numbers, Way::Upper)?;
    let steps = steps_of_numbers(alloc, kept, numbers)?;
    Ok(Chain {
        grounds,
        steps,
        results: List::new(alloc),
    })
}

/// The architecture's own elements, then items, then firings.
fn steps_of_numbers<K: Keeps>(
    alloc: Global,
    kept: &K,
    numbers: &[u64],
) -> Result<List<Step>, NoMemory>
    requires { AreFrom (K.kept kept.now) (K.kept kept.now) }
    ensures { IfOk result (λ steps. map step_seen steps ≡ steps_of_numbers (K.kept kept.now) numbers.now) }
{
    let architecture = elements_used(alloc, kept, numbers, Way::Architecture)?;
    let items = items_used(alloc, kept, numbers)?;
    let mut steps = List::new(alloc);
    add_architecture(&mut steps, architecture.as_slice())?;
    add_items(&mut steps, items.as_slice())?;
    add_firings(alloc, &mut steps, kept, numbers)?;
    Ok(steps)
}
