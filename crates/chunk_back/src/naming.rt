// Elements that name another, in order.
ghost use Rattle.std.specs.Prelude.{◌≡◌, [], IfOk, OnOk, map};
ghost use Rattle.defs_soar.specs.Explanation.{is_seen, with_naming};
ghost use Rattle.chunk_back.specs.Namings.{as_naming};

use soar_sym::NoMemory;
use soar_wm::Element;
use std::alloc::Global;
use std::collections::BTreeMap;
use std::marker::Model;

/// An element, and the tag of the marked element that it names.
#[derive(Clone, Copy)]
pub(crate) struct Naming {
    pub(crate) element: Element,
    pub(crate) named: u32,
}

/// Namings in order of the element's tag, then of the tag named, each pair of tags once.
#[derive(Drop)]
pub(crate) struct Namings {
    namings: BTreeMap<(u32, u32), Naming>,
}

impl Model for Namings {
    ghost use Rattle.std.specs.Prelude.{List as ListOf};
    ghost use Rattle.defs_soar.specs.Explanation.{TagNaming};
    ghost use Rattle.chunk_back.specs.Namings.{namings_in, AreNamings};

    ghost Value = { ListOf TagNaming };

    ghost view = { λ n. namings_in n.namings.entries };

    ghost invariant = { λ n. AreNamings n.namings.entries };
}

impl Namings {
    /// No namings.
    pub(crate) fn new(alloc: Global) -> Namings
        ensures { result ≡ [] }
    {
        Namings {
            namings: BTreeMap::new(alloc),
        }
    }

    /// Whether there is a naming of these tags.
    pub(crate) fn has(&self, naming: &Naming) -> bool
        ensures { result ≡ is_seen self.now (as_naming naming.now) }
    {
        self.namings
            .contains_key(&(naming.element.tag, naming.named))
    }

    /// Adds a naming at its place, where its tags are new.
    pub(crate) fn add(&mut self, naming: Naming) -> Result<(), NoMemory>
        ensures { OnOk result (self.new ≡ with_naming (as_naming naming) self.old) }
    {
        let key = (naming.element.tag, naming.named);
        if !self.namings.contains_key(&key) {
            self.namings.insert(key, naming)?;
        }
        Ok(())
    }

    /// The namings as a list.
    pub(crate) fn into_namings(self, alloc: Global) -> Result<Vec<Naming>, NoMemory>
        ensures { IfOk result (λ namings. map as_naming namings.items ≡ self) }
    {
        let values = values_of(alloc, self.namings)?;
        Ok(values)
    }
}

fn values_of(alloc: Global, namings: BTreeMap<(u32, u32), Naming>) -> Result<Vec<Naming>, NoMemory>
    ensures { IfOk result (λ values. values.items ≡ map (λ e. e.1) namings.entries) }
{
    Ok(namings.into_values().collect(alloc)?)
}
