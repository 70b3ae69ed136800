// Elements in a slab, found by tag, by triple and by identifier.
ghost use Rattle.std.specs.Prelude.{◌≡◌, ◌<◌, [], ◌∷◌, ◌++◌, None, OnOk, OnErr, IfOk, length};
ghost use Rattle.soar_wm.specs.WorkingMemory.{triple_of, tag_of, element_of, elements_of, without_tag, IsGiven, IsRising, IsDistinct};

use crate::copies;
use crate::element::Element;
use crate::index::Index;
use crate::packed::PackedElement;
use slab::Slab;
use soar_sym::{List, NoMemory, Sym, Triple};
use std::alloc::Global;
use std::collections::BTreeMap;
use std::marker::Model;

/// Elements in order of tag.
#[derive(Drop)]
pub struct Shelf {
    cells: Slab<PackedElement>,
    tags: BTreeMap<u32, usize>,
    index: Index,
}

impl Model for Shelf {
    ghost use Rattle.std.specs.Prelude.{List as ListOf};
    ghost use Rattle.slab.specs.Slab.{get};
    ghost use Rattle.soar_wm.specs.declared.element.Element.{Element as ElementOf};
    ghost use Rattle.soar_wm.specs.Shelf.{listed, IsShelf};

    ghost Value = { ListOf ElementOf };

    ghost view = { λ s. listed (get s.cells) s.tags.entries };

    ghost invariant = { λ s. IsShelf (get s.cells) s.tags.entries s.index.triples.entries s.index.ids.entries };
}

impl Shelf {
    /// No elements. It takes no memory.
    pub fn new(alloc: Global) -> Shelf
        ensures { result ≡ [] }
    {
        Shelf {
            cells: Slab::new(alloc),
            tags: BTreeMap::new(alloc),
            index: Index::new(alloc),
        }
    }

    /// The number of elements.
    pub fn len(&self) -> usize
        ensures { result ≡ length self.now }
    {
        self.tags.len()
    }

    /// The tag of a triple.
    pub fn tag(&self, triple: Triple) -> Option<u32>
        ensures { result ≡ tag_of triple self.now }
    {
        self.index.tag(triple)
    }

    /// The element of a tag.
    pub fn get(&self, tag: u32) -> Option<Element>
        ensures { result ≡ element_of tag self.now }
    {
        copies::at_tag(&self.cells, &self.tags, tag)
    }

    /// Adds an element of a later tag than all, of a triple that none has.
    pub fn push(&mut self, element: Element, last: u32) -> Result<(), NoMemory>
        requires given { IsGiven last self.old }
        requires later { last < element.tag }
        requires new { tag_of (triple_of element) self.old ≡ None }
        ensures ok { OnOk result (self.new ≡ self.old ++ element ∷ []) }
        ensures err { OnErr result (self.new ≡ self.old) }
    {
        self.cells.reserve(1)?;
        let key = self.cells.vacant_key();
        self.index.add(element)?;
        match self.tags.insert(element.tag, key) {
            Ok(_) => {
                self.cells.insert_reserved(PackedElement::new(element));
                Ok(())
            }
            Err(_) => {
                self.index.remove(element);
                Err(NoMemory)
            }
        }
    }

    /// Takes the element of a tag away, and answers it.
    pub fn remove(&mut self, tag: u32) -> Option<Element>
        requires rising { IsRising self.old }
        requires distinct { IsDistinct self.old }
        ensures removed { result ≡ element_of tag self.old }
        ensures rest { self.new ≡ without_tag tag self.old }
    {
        let key = self.tags.remove(&tag)?;
        let taken = self.cells.try_remove(key)?;
        let element = taken.element();
        self.index.remove(element);
        Some(element)
    }

    /// Copies of the elements of an identifier.
    pub fn of_id(&self, alloc: Global, id: Sym, last: u32) -> Result<List<Element>, NoMemory>
        requires rising { IsRising self.now }
        requires given { IsGiven last self.now }
        ensures { IfOk result (λ elements. elements ≡ elements_of id self.now) }
    {
        copies::of_id(alloc, &self.cells, &self.tags, &self.index.ids, id)
    }

    /// Copies of all elements.
    pub fn all(&self, alloc: Global) -> Result<List<Element>, NoMemory>
        ensures { IfOk result (λ elements. elements ≡ self.now) }
    {
        copies::all(alloc, &self.cells, &self.tags)
    }
}
