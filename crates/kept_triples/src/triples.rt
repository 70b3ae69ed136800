// Triples in a set.
ghost use Rattle.std.specs.Prelude.{◌≡◌, ◌||◌, ◌&&◌, not, cond, Bool, [], ◌∷◌, IfOk, OnOk, OnErr};
ghost use Rattle.soar_sym.specs.declared.symbol.Triple.{Triple as TripleOf};
ghost use Rattle.defs_soar.specs.Values.{has_triple_among, triple_eq};
ghost use Rattle.kept_triples.specs.Counts.{how_many};

use packed_triples::PackedTriple;
use soar_sym::{NoMemory, Triple};
use std::alloc::Global;
use std::collections::HashSet;
use std::marker::Model;

/// Triples, each once, of which one can tell in short time whether one is among them.
#[derive(Drop)]
pub struct TripleSet {
    table: HashSet<PackedTriple>,
}

impl Model for TripleSet {
    ghost use Rattle.std.specs.Prelude.{List as ListOf};
    ghost use Rattle.soar_sym.specs.declared.symbol.Triple.{Triple as TripleOf};

    ghost Value = { ListOf TripleOf };

    ghost view = { λ set. set.table.keys };
}

impl TripleSet {
    /// No triples. It takes no memory.
    pub fn new(alloc: Global) -> TripleSet
        ensures { result ≡ [] }
    {
        TripleSet {
            table: HashSet::new(alloc),
        }
    }

    /// These triples.
    pub fn of(alloc: Global, triples: &[Triple]) -> Result<TripleSet, NoMemory>
        ensures { IfOk result (λ set. (t : TripleOf) → has_triple_among set t ≡ has_triple_among triples.now t) }
    {
        let mut set = TripleSet::new(alloc);
        'triples: for triple in triples {
            set.add(*triple)?;
        }
        Ok(set)
    }

    /// Whether a triple is among them.
    pub fn has(&self, triple: Triple) -> bool
        ensures { result ≡ has_triple_among self.now triple }
    {
        self.table.contains(&PackedTriple::new(triple))
    }

    /// One triple more, and whether it is new. Of a new one there is one more then, of any other as many as before.
    pub fn add(&mut self, triple: Triple) -> Result<bool, NoMemory>
        ensures new { IfOk result (λ is_new. is_new ≡ not (has_triple_among self.old triple)) }
        ensures has { OnOk result ((t : TripleOf) → has_triple_among self.new t ≡ (triple_eq t triple || has_triple_among self.old t)) }
        ensures once { IfOk result (λ is_new. (p : TripleOf → Bool) → how_many p self.new ≡ how_many p (cond is_new (triple ∷ self.old) self.old)) }
        ensures err { OnErr result (self.new ≡ self.old) }
    {
        let is_new = self.table.insert(PackedTriple::new(triple))?;
        Ok(is_new)
    }

    /// One triple less, and whether it was there. Of one that was there, there is one less then, of any other as many as before.
    pub fn remove(&mut self, triple: Triple) -> bool
        ensures was { result ≡ has_triple_among self.old triple }
        ensures has { (t : TripleOf) → has_triple_among self.new t ≡ (not (triple_eq t triple) && has_triple_among self.old t) }
        ensures once { (p : TripleOf → Bool) → how_many p (cond result (triple ∷ self.new) self.new) ≡ how_many p self.old }
    {
        self.table.remove(&PackedTriple::new(triple))
    }
}
