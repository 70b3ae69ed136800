// Triples in a set.
ghost use Rattle.std.specs.Prelude.{◌≡◌, ◌||◌, [], OnOk};
ghost use Rattle.soar_sym.specs.declared.symbol.Triple.{Triple as TripleOf};
ghost use Rattle.defs_soar.specs.Values.{has_triple_among, triple_eq};

use soar_sym::{NoMemory, Triple};
use std::alloc::Global;
use std::collections::BTreeSet;
use std::marker::Model;

/// Triples of which one can tell in short time whether one is among them.
#[derive(Drop)]
pub struct TripleSet {
    tree: BTreeSet<Triple>,
}

impl Model for TripleSet {
    ghost use Rattle.std.specs.Prelude.{List as ListOf};
    ghost use Rattle.soar_sym.specs.declared.symbol.Triple.{Triple as TripleOf};

    ghost Value = { ListOf TripleOf };

    ghost view = { λ set. set.tree.keys };
}

impl TripleSet {
    /// No triples. It takes no memory.
    pub fn new(alloc: Global) -> TripleSet
        ensures { result ≡ [] }
    {
        TripleSet {
            tree: BTreeSet::new(alloc),
        }
    }

    /// Whether a triple is among them.
    pub fn has(&self, triple: Triple) -> bool
        ensures { result ≡ has_triple_among self.now triple }
    {
        self.tree.contains(&triple)
    }

    /// One triple more.
    pub fn add(&mut self, triple: Triple) -> Result<(), NoMemory>
        ensures { OnOk result ((t : TripleOf) → has_triple_among self.new t ≡ (triple_eq t triple || has_triple_among self.old t)) }
    {
        self.tree.insert(triple)?;
        Ok(())
    }
}
