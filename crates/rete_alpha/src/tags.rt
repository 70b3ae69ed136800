// Tags in order.
ghost use Rattle.std.specs.Prelude.{◌≡◌, ◌↔◌, [], IsTrue, OnOk, OnErr};
ghost use Rattle.rete_alpha.specs.Numbers.{with_number, without_number};

use soar_sym::NoMemory;
use std::alloc::Global;
use std::collections::BTreeSet;
use std::collections::btree_set::Iter;
use std::marker::Model;

/// Tags, each once, the lowest first. What a change costs grows with the logarithm of their number.
#[derive(Drop)]
pub struct Tags {
    set: BTreeSet<u32>,
}

impl Model for Tags {
    ghost use Rattle.std.specs.Prelude.{List as ListOf, ℕ};

    ghost Value = { ListOf ℕ };

    ghost view = { λ t. t.set.keys };
}

impl Tags {
    /// No tags. It takes no memory.
    pub fn new(alloc: Global) -> Tags
        ensures { result ≡ [] }
    {
        Tags {
            set: BTreeSet::new(alloc),
        }
    }

    /// Puts a tag at its place, unless it is there. Want of memory changes nothing.
    pub fn insert(&mut self, tag: u32) -> Result<(), NoMemory>
        ensures ok { OnOk result (self.new ≡ with_number tag self.old) }
        ensures err { OnErr result (self.new ≡ self.old) }
    {
        self.set.insert(tag)?;
        Ok(())
    }

    /// Takes a tag away, where it is there.
    pub fn remove(&mut self, tag: u32)
        ensures { self.new ≡ without_number tag self.old }
    {
        self.set.remove(&tag);
    }

    /// Whether there are no tags.
    pub fn is_empty(&self) -> bool
        ensures { IsTrue result ↔ (self.now ≡ []) }
    {
        self.set.is_empty()
    }

    /// The tags, the lowest first.
    pub fn iter(&self) -> Iter<'_, u32>
        ensures { result ≡ self.now }
    {
        self.set.iter()
    }
}
