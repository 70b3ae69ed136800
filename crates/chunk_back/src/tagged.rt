// Elements in order of tag.
ghost use Rattle.std.specs.Prelude.{◌≡◌, [], IfOk, OnOk};
ghost use Rattle.defs_soar.specs.Explanation.{at_its_tag};

use soar_sym::{List, NoMemory};
use soar_wm::Element;
use std::alloc::Global;
use std::collections::BTreeMap;
use std::marker::Model;

/// Elements in order of tag, each tag once.
#[derive(Drop)]
pub(crate) struct Tagged {
    elements: BTreeMap<u32, Element>,
}

impl Model for Tagged {
    ghost use Rattle.std.specs.Prelude.{List as ListOf};
    ghost use Rattle.soar_wm.specs.declared.element.Element.{Element as ElementOf};
    ghost use Rattle.chunk_back.specs.Keyed.{elements_in, IsTagged};

    ghost Value = { ListOf ElementOf };

    ghost view = { λ t. elements_in t.elements.entries };

    ghost invariant = { λ t. IsTagged t.elements.entries };
}

impl Tagged {
    /// No elements.
    pub(crate) fn new(alloc: Global) -> Tagged
        ensures { result ≡ [] }
    {
        Tagged {
            elements: BTreeMap::new(alloc),
        }
    }

    /// Adds an element at the place of its tag, where that is new.
    pub(crate) fn add(&mut self, element: Element) -> Result<(), NoMemory>
        ensures { OnOk result (self.new ≡ at_its_tag element self.old) }
    {
        if !self.elements.contains_key(&element.tag) {
            self.elements.insert(element.tag, element)?;
        }
        Ok(())
    }

    /// The elements as a list.
    pub(crate) fn into_elements(self, alloc: Global) -> Result<List<Element>, NoMemory>
        ensures { IfOk result (λ elements. elements ≡ self) }
    {
        Ok(List::from_vec(self.elements.into_values().collect(alloc)?))
    }
}
