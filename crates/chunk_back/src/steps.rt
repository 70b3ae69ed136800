// The steps of explanations.
ghost use Rattle.std.specs.Prelude.{◌≡◌, ◌++◌, [], not, List as ListOf, OnOk, filter, flat_map, map};
ghost use Rattle.defs_soar.specs.Explanation.{as_item_step, as_select_step, firing_of, firing_steps, is_seen, namings_in_order, selection_of};
ghost use Rattle.defs_soar.specs.History.{architecture_step, firing_seen, step_seen, FiringOf};
ghost use Rattle.defs_soar.specs.Standing.{AreFrom};
ghost use Rattle.chunk_back.specs.Namings.{as_naming};
ghost use Rattle.chunk_back.specs.Parts.{with_namings};
ghost use Rattle.chunk_back.specs.Steps.{steps_of_firing};

use crate::copy::copy_firing;
use crate::named::selections_of;
use crate::naming::{Naming, Namings};
use defs_soar::{Firing, Keeps, Step};
use soar_sym::{List, NoMemory};
use soar_wm::Element;
use std::alloc::Global;

/// A step for each of the architecture's own elements.
pub(crate) fn add_architecture(steps: &mut List<Step>, elements: &[Element]) -> Result<(), NoMemory>
    ensures { OnOk result (map step_seen steps.new ≡ map step_seen steps.old ++ map architecture_step elements.now) }
{
    'elements: for element in elements {
        steps.push(Step::Architecture(*element))?;
    }
    Ok(())
}

/// A step for each item.
pub(crate) fn add_items(steps: &mut List<Step>, items: &[Naming]) -> Result<(), NoMemory>
    ensures { OnOk result (map step_seen steps.new ≡ map step_seen steps.old ++ map as_item_step (map as_naming items.now)) }
{
    'items: for item in items {
        steps.push(Step::Item(item.element, item.named))?;
    }
    Ok(())
}

/// The steps of the firings of these numbers, a selection just before the firing that first used it.
pub(crate) fn add_firings<K: Keeps>(
    alloc: Global,
    steps: &mut List<Step>,
    kept: &K,
    numbers: &[u64],
) -> Result<(), NoMemory>
    requires { AreFrom (K.kept kept.now) (K.kept kept.now) }
    ensures { OnOk result (map step_seen steps.new ≡ map step_seen steps.old ++ firing_steps [] (flat_map (firing_of (K.kept kept.now)) numbers.now)) }
{
    let mut seen = Namings::new(alloc);
    'numbers: for number in numbers {
        add_number(alloc, steps, &mut seen, kept, *number)?;
    }
    Ok(())
}

/// The steps of the firing of a number. What the others give stays to be added.
fn add_number<K: Keeps>(
    alloc: Global,
    steps: &mut List<Step>,
    seen: &mut Namings,
    kept: &K,
    number: u64,
) -> Result<(), NoMemory>
    requires { AreFrom (K.kept kept.now) (K.kept kept.now) }
    ensures { OnOk result ((others : ListOf FiringOf) → map step_seen steps.new ++ firing_steps seen.new others ≡ map step_seen steps.old ++ firing_steps seen.old (firing_of (K.kept kept.now) number ++ others)) }
{
    match kept.firing(number) {
        Some(firing) => add_firing(alloc, steps, seen, firing),
        None => Ok(()),
    }
}

fn add_firing(
    alloc: Global,
    steps: &mut List<Step>,
    seen: &mut Namings,
    firing: &Firing,
) -> Result<(), NoMemory>
    ensures steps { OnOk result (map step_seen steps.new ≡ map step_seen steps.old ++ steps_of_firing seen.old (firing_seen firing.now)) }
    ensures seen { OnOk result (seen.new ≡ with_namings (namings_in_order (flat_map selection_of firing.now.used)) seen.old) }
{
    let selections = selections_of(alloc, firing.used.as_slice())?;
    add_new_selections(steps, seen, selections.as_slice())?;
    see_all(seen, selections.as_slice())?;
    steps.push(Step::Fire(copy_firing(alloc, firing)?))?;
    Ok(())
}

/// A step for each selection that was not seen.
fn add_new_selections(
    steps: &mut List<Step>,
    seen: &Namings,
    selections: &[Naming],
) -> Result<(), NoMemory>
    ensures { OnOk result (map step_seen steps.new ≡ map step_seen steps.old ++ map as_select_step (filter (λ n. not (is_seen seen.now n)) (map as_naming selections.now))) }
{
    'selections: for selection in selections {
        if !seen.has(selection) {
            steps.push(Step::Select(selection.element, selection.named))?;
        }
    }
    Ok(())
}

fn see_all(seen: &mut Namings, selections: &[Naming]) -> Result<(), NoMemory>
    ensures { OnOk result (seen.new ≡ with_namings (map as_naming selections.now) seen.old) }
{
    'selections: for at in (0..selections.len()).rev() {
        seen.add(selections[at])?;
    }
    Ok(())
}
