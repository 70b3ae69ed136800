// The tests of firings between symbols.
ghost use Rattle.std.specs.Prelude.{◌≡◌, ◌++◌, flat_map, map, IfOk, OnOk};
ghost use Rattle.carried_tests.specs.Parts.{tests_of_step};
ghost use Rattle.carried_tests.specs.Seen.{carried_seen};
ghost use Rattle.defs_soar.specs.CarriedTests.{tests_of_firing};
ghost use Rattle.defs_soar.specs.History.{firing_seen, step_seen};
ghost use Rattle.defs_soar.specs.Uses.{element_with, elements_matched};
ghost use Rattle.soar_wm.specs.WorkingMemory.{element_of};

use crate::carrying::CarriedTest;
use crate::conditions::add_conditions;
use chain_identifiers::bindings_of;
use defs_soar::{Firing, Step, Used};
use soar_sym::{List, NoMemory};
use soar_wm::Element;
use std::alloc::Global;

/// Adds those of the firings among steps.
pub(crate) fn add_steps(
    alloc: Global,
    tests: &mut Vec<CarriedTest>,
    steps: &[Step],
) -> Result<(), NoMemory>
    ensures { OnOk result (map carried_seen tests.new.items ≡ map carried_seen tests.old.items ++ flat_map tests_of_step (map step_seen steps.now)) }
{
    'steps: for step in steps {
        add_step(alloc, tests, step)?;
    }
    Ok(())
}

fn add_step(alloc: Global, tests: &mut Vec<CarriedTest>, step: &Step) -> Result<(), NoMemory>
    ensures { OnOk result (map carried_seen tests.new.items ≡ map carried_seen tests.old.items ++ tests_of_step (step_seen step.now)) }
{
    match step {
        Step::Fire(firing) => add_firing(alloc, tests, firing),
        _ => Ok(()),
    }
}

fn add_firing(alloc: Global, tests: &mut Vec<CarriedTest>, firing: &Firing) -> Result<(), NoMemory>
    ensures { OnOk result (map carried_seen tests.new.items ≡ map carried_seen tests.old.items ++ tests_of_firing (firing_seen firing.now)) }
{
    let bindings = bindings_of(alloc, firing)?;
    let elements = elements_matched(
        alloc,
        firing.used.as_slice(),
        firing.instance.tags.as_slice(),
    )?;
    let conds = firing.rule.production.conds.as_slice();
    add_conditions(tests, bindings.as_slice(), conds, &elements)
}

// ---- the elements of an instance

/// The elements of these tags, as far as the firing used them.
fn elements_matched(alloc: Global, used: &[Used], tags: &[u32]) -> Result<List<Element>, NoMemory>
    ensures { IfOk result (λ elements. elements ≡ elements_matched (map (λ u. u.element) used.now) tags.now) }
{
    let mut elements = List::new(alloc);
    'tags: for tag in tags {
        add_element(&mut elements, used, *tag)?;
    }
    Ok(elements)
}

fn add_element(elements: &mut List<Element>, used: &[Used], tag: u32) -> Result<(), NoMemory>
    ensures { OnOk result (elements.new ≡ elements.old ++ element_with (map (λ u. u.element) used.now) tag) }
{
    if let Some(element) = element_of(used, tag) {
        elements.push(element)?;
    }
    Ok(())
}

fn element_of(used: &[Used], tag: u32) -> Option<Element>
    ensures { result ≡ element_of tag (map (λ u. u.element) used.now) }
{
    'used: for one in used {
        if one.element.tag == tag {
            return Some(one.element);
        }
    }
    None
}
