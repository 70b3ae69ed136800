// The tag of each triple, and the tags of each identifier.
ghost use Rattle.std.specs.Prelude.{◌≡◌, [], None, Some, OnOk, OnErr};
ghost use Rattle.soar_wm.specs.Shelf.{at_triple, at_id, place_of, Puts};
ghost use Rattle.soar_wm.specs.WorkingMemory.{triple_of};

use crate::element::Element;
use crate::place::{Place, place_of};
use packed_triples::PackedTriple;
use soar_sym::{NoMemory, Triple};
use std::alloc::Global;
use std::collections::{BTreeMap, HashMap};

/// Elements by triple, and by identifier in order of tag.
#[derive(Drop)]
pub struct Index {
    pub triples: HashMap<PackedTriple, u32>,
    pub ids: BTreeMap<(Place, u32), ()>,
}

impl Index {
    /// No elements. It takes no memory.
    pub fn new(alloc: Global) -> Index
        ensures triples { result.triples.entries ≡ [] }
        ensures ids { result.ids.entries ≡ [] }
    {
        Index {
            triples: HashMap::new(alloc),
            ids: BTreeMap::new(alloc),
        }
    }

    /// The tag of a triple.
    pub fn tag(&self, triple: Triple) -> Option<u32>
        ensures { result ≡ at_triple self.now.triples.entries triple }
    {
        self.triples.get(&PackedTriple::new(triple)).copied()
    }

    /// Adds an element.
    pub fn add(&mut self, element: Element) -> Result<(), NoMemory>
        requires triple { at_triple self.old.triples.entries (triple_of element) ≡ None }
        requires id { at_id self.old.ids.entries (place_of element.id, element.tag) ≡ None }
        ensures ok { OnOk result (Puts element (Some element.tag) self.old.triples.entries self.new.triples.entries self.old.ids.entries self.new.ids.entries) }
        ensures err { OnErr result (Puts element None self.old.triples.entries self.new.triples.entries self.old.ids.entries self.new.ids.entries) }
    {
        let parts = packed(element);
        self.triples.insert(parts, element.tag)?;
        match self.ids.insert((place_of(element.id), element.tag), ()) {
            Ok(_) => Ok(()),
            Err(_) => {
                self.triples.remove(&parts);
                Err(NoMemory)
            }
        }
    }

    /// Takes an element away.
    pub fn remove(&mut self, element: Element)
        ensures { Puts element None self.old.triples.entries self.new.triples.entries self.old.ids.entries self.new.ids.entries }
    {
        self.triples.remove(&packed(element));
        self.ids.remove(&(place_of(element.id), element.tag));
    }
}

/// The triple of an element, packed.
fn packed(element: Element) -> PackedTriple
    ensures { result ≡ triple_of element }
{
    PackedTriple::new(Triple {
        id: element.id,
        attr: element.attr,
        value: element.value,
        accept: element.accept,
    })
}
