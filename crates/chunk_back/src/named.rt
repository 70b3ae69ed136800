// The elements that name another, as the firings of some numbers used them.
ghost use Rattle.std.specs.Prelude.{◌≡◌, IfOk, OnOk, flat_map, map};
ghost use Rattle.defs_soar.specs.Explanation.{item_of, namings_in_order, selection_of};
ghost use Rattle.defs_soar.specs.Standing.{AreFrom};
ghost use Rattle.chunk_back.specs.Namings.{as_naming};
ghost use Rattle.chunk_back.specs.Parts.{namings_of, uses_at, uses_of, with_namings};

use crate::naming::{Naming, Namings};
use defs_soar::{How, Keeps, Used};
use soar_sym::NoMemory;
use std::alloc::Global;

/// In which way elements were used that name another.
#[derive(Clone, Copy)]
pub(crate) enum NamedWay {
    /// As items.
    Item,
    /// As selected operators.
    Selected,
}

/// The items that the firings of these numbers used.
pub(crate) fn items_used<K: Keeps>(
    alloc: Global,
    kept: &K,
    numbers: &[u64],
) -> Result<Vec<Naming>, NoMemory>
    requires { AreFrom (K.kept kept.now) (K.kept kept.now) }
    ensures { IfOk result (λ items. map as_naming items.items ≡ namings_in_order (flat_map item_of (uses_of (K.kept kept.now) numbers.now))) }
{
    let mut items = Namings::new(alloc);
    'numbers: for at in (0..numbers.len()).rev() {
        add_items_of_number(&mut items, kept, numbers[at])?;
    }
    let items = items.into_namings(alloc)?;
    Ok(items)
}

fn add_items_of_number<K: Keeps>(items: &mut Namings, kept: &K, number: u64) -> Result<(), NoMemory>
    requires { AreFrom (K.kept kept.now) (K.kept kept.now) }
    ensures { OnOk result (items.new ≡ with_namings (flat_map item_of (uses_at (K.kept kept.now) number)) items.old) }
{
    match kept.firing(number) {
        Some(firing) => add_used(items, firing.used.as_slice(), NamedWay::Item),
        None => Ok(()),
    }
}

/// The selected operators that a firing used.
pub(crate) fn selections_of(alloc: Global, used: &[Used]) -> Result<Vec<Naming>, NoMemory>
    ensures { IfOk result (λ selections. map as_naming selections.items ≡ namings_in_order (flat_map selection_of used.now)) }
{
    let mut selections = Namings::new(alloc);
    add_used(&mut selections, used, NamedWay::Selected)?;
    let selections = selections.into_namings(alloc)?;
    Ok(selections)
}

fn add_used(namings: &mut Namings, used: &[Used], way: NamedWay) -> Result<(), NoMemory>
    ensures { OnOk result (namings.new ≡ with_namings (flat_map (namings_of way) used.now) namings.old) }
{
    'used: for at in (0..used.len()).rev() {
        let element = used[at].element;
        match (way, used[at].how) {
            (NamedWay::Item, How::Item(named)) | (NamedWay::Selected, How::Selected(named)) => {
                namings.add(Naming { element, named })?;
            }
            _ => {}
        }
    }
    Ok(())
}
