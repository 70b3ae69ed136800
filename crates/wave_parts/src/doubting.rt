// Tags that may be of elements that are gone.
ghost use Rattle.std.specs.Prelude.{◌≡◌, map, IfOk};
ghost use Rattle.soar_wm.specs.declared.element.Element.{Element as ElementOf};

use soar_sym::{List, NoMemory};
use soar_wm::Element;
use std::alloc::Global;

/// The tags of elements.
pub fn tags_of(alloc: Global, elements: &[Element]) -> Result<List<u32>, NoMemory>
    ensures { IfOk result (λ tags. tags ≡ map (λ (e : ElementOf). e.tag) elements.now) }
{
    let mut tags = List::new(alloc);
    'elements: for element in elements {
        tags.push(element.tag)?;
    }
    Ok(tags)
}
