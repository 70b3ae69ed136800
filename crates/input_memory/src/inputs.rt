ghost use Rattle.std.specs.Prelude.{◌≡◌, [], ◌∷◌, ◌++◌, filter, length, not, OnOk, OnErr, IfOk};
ghost use Rattle.soar_sym.specs.Equality.{symbol_eq};
ghost use Rattle.defs_soar.specs.Values.{has_triple_among, triple_eq};

use crate::key::Key;
use crate::store::Store;
use soar_sym::{List, NoMemory, Sym, Triple};
use std::alloc::Global;
use std::collections::btree_map::Values;
use std::marker::Model;

/// The inputs of an agent, in the order in which they came (Soar manual, chapter 2, input and output).
#[derive(Drop)]
pub struct Inputs {
    store: Store,
    /// Whether an input with the mark was ever added.
    marked: bool,
}

impl Model for Inputs {
    ghost use Rattle.std.specs.Prelude.{List as ListOf};
    ghost use Rattle.std.specs.Map.{values_of};
    ghost use Rattle.soar_sym.specs.declared.symbol.Triple.{Triple as TripleOf};
    ghost use Rattle.input_memory.specs.Marks.{AreMarksTold};
    ghost use Rattle.input_memory.specs.Store.{IsStore};

    ghost Value = { ListOf TripleOf };

    ghost view = { λ p. values_of p.store.triples.entries };

    ghost invariant = { λ p. IsStore p.store.triples.entries p.store.numbers p.store.next × AreMarksTold p.marked (values_of p.store.triples.entries) };
}

impl Inputs {
    /// No inputs. It takes no memory.
    pub fn new(alloc: Global) -> Inputs
        ensures { result ≡ [] }
    {
        Inputs {
            store: Store::new(alloc),
            marked: false,
        }
    }

    /// Adds a triple at the end, also where it is there already. That 2^64 - 1 triples were added before counts as want
    /// of memory.
    pub fn add(&mut self, triple: Triple) -> Result<(), NoMemory>
        ensures ok { OnOk result (self.new ≡ self.old ++ triple ∷ []) }
        ensures err { OnErr result (self.new ≡ self.old) }
    {
        self.store.add(triple)?;
        if triple.accept {
            self.marked = true;
        }
        Ok(())
    }

    /// Takes a triple away, wherever it stands. Others keep their order.
    pub fn remove(&mut self, triple: Triple)
        ensures { self.new ≡ filter (λ t. not (triple_eq t triple)) self.old }
    {
        self.store.drop_key(Key::Whole(triple));
    }

    /// Takes the inputs of an identifier away.
    pub fn drop_id(&mut self, id: Sym)
        ensures { self.new ≡ filter (λ t. not (symbol_eq t.id id)) self.old }
    {
        self.store.drop_key(Key::Id(id));
    }

    /// Whether a triple is among the inputs, its mark included.
    pub fn has(&self, triple: Triple) -> bool
        ensures { result ≡ has_triple_among self.now triple }
    {
        if triple.accept && !self.marked {
            return false;
        }
        self.store.has_key(Key::Whole(triple))
    }

    /// How many inputs there are.
    pub fn len(&self) -> usize
        ensures { result ≡ length self.now }
    {
        self.store.triples.len()
    }

    /// Copies of the inputs of an identifier, in order of adding.
    pub fn of_id(&self, alloc: Global, id: Sym) -> Result<List<Triple>, NoMemory>
        ensures { IfOk result (λ found. found ≡ filter (λ t. symbol_eq t.id id) self.now) }
    {
        self.store.of_id(alloc, id)
    }

    /// Copies of all inputs, in order of adding.
    pub fn all(&self, alloc: Global) -> Result<List<Triple>, NoMemory>
        ensures { IfOk result (λ all. all ≡ self.now) }
    {
        self.store.all(alloc)
    }

    /// All inputs, in order of adding.
    pub fn triples(&self) -> Values<'_, u64, Triple>
        ensures { result ≡ self.now }
    {
        self.store.triples.values()
    }
}
