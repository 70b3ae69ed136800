// Elements in order of tag.
ghost use Rattle.std.specs.Prelude.{◌≡◌, IfOk, OnOk};
ghost use Rattle.std.specs.BTreeMap.{insert_entry};
ghost use Rattle.std.specs.Ordering.{nat_cmp};
ghost use Rattle.touched_tags.specs.Looked.{elements_in};

use soar_sym::{List, NoMemory};
use soar_wm::Element;
use std::alloc::Global;
use std::collections::BTreeMap;

/// Adds an element at its tag.
pub fn add_element(tagged: &mut BTreeMap<u32, Element>, element: Element) -> Result<(), NoMemory>
    ensures { OnOk result (tagged.new.entries ≡ insert_entry nat_cmp tagged.old.entries element.tag element) }
{
    tagged.insert(element.tag, element)?;
    Ok(())
}

/// Elements in order of tag.
pub fn in_tag_order(
    alloc: Global,
    tagged: BTreeMap<u32, Element>,
) -> Result<List<Element>, NoMemory>
    ensures { IfOk result (λ elements. elements ≡ elements_in tagged.entries) }
{
    Ok(List::from_vec(tagged.into_values().collect(alloc)?))
}
