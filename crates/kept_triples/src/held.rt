// The triples that are held.
ghost use Rattle.std.specs.Prelude.{◌≡◌, ◌||◌, ◌&&◌, not, cond, Bool, false, true, [], ◌∷◌, IfOk, OnOk};
ghost use Rattle.soar_sym.specs.declared.symbol.Triple.{Triple as TripleOf};
ghost use Rattle.defs_soar.specs.Values.{has_triple_among, triple_eq};
ghost use Rattle.kept_triples.specs.Counts.{how_many};
ghost use Rattle.kept_triples.specs.Marks.{is_strange};

use crate::triples::TripleSet;
use soar_sym::architecture::OPERATOR;
use soar_sym::{NoMemory, Triple, is_symbol};
use std::alloc::Global;
use std::marker::Model;

/// Triples, each once. Of triples with the mark hardly any but those of operators are ever added, and the others are told
/// without a look.
#[derive(Drop)]
pub struct HeldTriples {
    set: TripleSet,
    /// Whether a triple with the mark was ever added that is of no operator.
    strange: bool,
}

impl Model for HeldTriples {
    ghost use Rattle.std.specs.Prelude.{List as ListOf};
    ghost use Rattle.soar_sym.specs.declared.symbol.Triple.{Triple as TripleOf};
    ghost use Rattle.kept_triples.specs.Marks.{AreStrangeTold};

    ghost Value = { ListOf TripleOf };

    ghost view = { λ held. held.set };

    ghost invariant = { λ held. AreStrangeTold held.strange held.set };
}

/// Whether a triple has the mark and is of no operator.
fn is_strange(triple: Triple) -> bool
    ensures { result ≡ is_strange triple }
{
    triple.accept && !is_symbol(triple.attr, OPERATOR)
}

/// Whether one was ever added, or this one is.
fn is_any_strange(strange: bool, triple: Triple) -> bool
    ensures { result ≡ (strange || is_strange triple) }
{
    strange || is_strange(triple)
}

impl HeldTriples {
    /// No triples. It takes no memory.
    pub fn new(alloc: Global) -> HeldTriples
        ensures { result ≡ [] }
    {
        HeldTriples {
            set: TripleSet::new(alloc),
            strange: false,
        }
    }

    /// Whether no triple like this one was ever added.
    fn never_had(&self, triple: Triple) -> bool
        ensures { result ≡ true → has_triple_among self.now triple ≡ false }
    {
        !self.strange && is_strange(triple)
    }

    /// Whether a triple is among them.
    pub fn has(&self, triple: Triple) -> bool
        ensures { result ≡ has_triple_among self.now triple }
    {
        if self.never_had(triple) {
            return false;
        }
        self.set.has(triple)
    }

    /// One triple more, and whether it is new. Of a new one there is one more then, of any other as many as before.
    pub fn add(&mut self, triple: Triple) -> Result<bool, NoMemory>
        ensures new { IfOk result (λ is_new. is_new ≡ not (has_triple_among self.old triple)) }
        ensures has { OnOk result ((t : TripleOf) → has_triple_among self.new t ≡ (triple_eq t triple || has_triple_among self.old t)) }
        ensures once { IfOk result (λ is_new. (p : TripleOf → Bool) → how_many p self.new ≡ how_many p (cond is_new (triple ∷ self.old) self.old)) }
    {
        self.strange = is_any_strange(self.strange, triple);
        let is_new = self.set.add(triple)?;
        Ok(is_new)
    }

    /// One triple less, and whether it was there. Of one that was there, there is one less then, of any other as many as before.
    pub fn remove(&mut self, triple: Triple) -> bool
        ensures was { result ≡ has_triple_among self.old triple }
        ensures has { (t : TripleOf) → has_triple_among self.new t ≡ (not (triple_eq t triple) && has_triple_among self.old t) }
        ensures once { (p : TripleOf → Bool) → how_many p (cond result (triple ∷ self.new) self.new) ≡ how_many p self.old }
    {
        if self.never_had(triple) {
            return false;
        }
        self.set.remove(triple)
    }
}
