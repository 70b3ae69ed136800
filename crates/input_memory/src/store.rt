// Triples by number, found by their keys.
ghost use Rattle.std.specs.Prelude.{◌≡◌, ◌∷◌, ◌++◌, [], not, filter, OnOk, OnErr, IfOk};
ghost use Rattle.std.specs.BTreeMap.{is_at, IsOrdered};
ghost use Rattle.std.specs.List.{list_any};
ghost use Rattle.std.specs.Map.{values_of, remove_entry};
ghost use Rattle.std.specs.Ordering.{nat_cmp};
ghost use Rattle.soar_sym.specs.Equality.{symbol_eq};
ghost use Rattle.input_memory.specs.Key.{is_of};
ghost use Rattle.input_memory.specs.Store.{IsStore};

use crate::index::{self, Index};
use crate::key::Key;
use soar_sym::{List, NoMemory, Sym, Triple};
use std::alloc::Global;
use std::collections::BTreeMap;

/// Triples in order of adding.
#[derive(Drop)]
pub struct Store {
    pub triples: BTreeMap<u64, Triple>,
    pub numbers: Index,
    pub next: u64,
}

impl Store {
    /// No triples. It takes no memory.
    pub fn new(alloc: Global) -> Store
        ensures triples { result.triples.entries ≡ [] }
        ensures sound { IsStore result.triples.entries result.numbers result.next }
    {
        Store {
            triples: BTreeMap::new(alloc),
            numbers: index::empty(alloc),
            next: 0,
        }
    }

    /// Adds a triple. That 2^64 - 1 triples were added before counts as want of memory.
    pub fn add(&mut self, triple: Triple) -> Result<(), NoMemory>
        requires { IsStore self.old.triples.entries self.old.numbers self.old.next }
        ensures sound { IsStore self.new.triples.entries self.new.numbers self.new.next }
        ensures ok { OnOk result (values_of self.new.triples.entries ≡ values_of self.old.triples.entries ++ triple ∷ []) }
        ensures err { OnErr result (self.new.triples.entries ≡ self.old.triples.entries) }
    {
        let number = self.next;
        let Some(next) = number.checked_add(1) else {
            return Err(NoMemory);
        };
        index::note(&mut self.numbers, triple, number)?;
        match self.triples.insert(number, triple) {
            Ok(_) => {
                self.next = next;
                Ok(())
            }
            Err(_) => {
                index::forget(&mut self.numbers, triple, number);
                Err(NoMemory)
            }
        }
    }

    /// Takes a triple away.
    fn take(&mut self, number: u64)
        requires { IsStore self.old.triples.entries self.old.numbers self.old.next }
        ensures sound { IsStore self.new.triples.entries self.new.numbers self.new.next }
        ensures triples { self.new.triples.entries ≡ remove_entry (is_at (nat_cmp number)) self.old.triples.entries }
    {
        if let Some(triple) = self.triples.remove(&number) {
            index::forget(&mut self.numbers, triple, number);
        }
    }

    /// Takes the triples of a key away.
    pub fn drop_key(&mut self, key: Key)
        requires { IsStore self.old.triples.entries self.old.numbers self.old.next }
        ensures sound { IsStore self.new.triples.entries self.new.numbers self.new.next }
        ensures triples { values_of self.new.triples.entries ≡ filter (λ t. not (is_of key t)) (values_of self.old.triples.entries) }
    {
        'triples: while let Some(number) = index::first(&self.numbers, key) {
            self.take(number);
        }
    }

    /// Whether there is a triple of the key.
    pub fn has_key(&self, key: Key) -> bool
        requires { IsStore self.now.triples.entries self.now.numbers self.now.next }
        ensures { result ≡ list_any (is_of key) (values_of self.now.triples.entries) }
    {
        match index::first(&self.numbers, key) {
            Some(_) => true,
            None => false,
        }
    }

    /// Copies of all triples, in order of adding.
    pub fn all(&self, alloc: Global) -> Result<List<Triple>, NoMemory>
        ensures { IfOk result (λ all. all ≡ values_of self.now.triples.entries) }
    {
        copies(alloc, &self.triples)
    }

    /// Copies of the triples of an identifier, in order of adding.
    pub fn of_id(&self, alloc: Global, id: Sym) -> Result<List<Triple>, NoMemory>
        requires { IsStore self.now.triples.entries self.now.numbers self.now.next }
        ensures { IfOk result (λ found. found ≡ filter (λ t. symbol_eq t.id id) (values_of self.now.triples.entries)) }
    {
        let found = index::gather(alloc, &self.numbers, id)?;
        copies(alloc, &found)
    }
}

/// Copies of triples, in order of number.
fn copies(alloc: Global, triples: &BTreeMap<u64, Triple>) -> Result<List<Triple>, NoMemory>
    ensures copies { IfOk result (λ all. all ≡ values_of triples.now.entries) }
    ensures ordered { IsOrdered nat_cmp triples.now }
{
    let mut all = List::new(alloc);
    'triples: for triple in triples.values() {
        all.push(*triple)?;
    }
    Ok(all)
}
