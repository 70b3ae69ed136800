// Symbols, each with a level or none yet.
ghost use Rattle.level_graph.specs.Marks.{mark_at, has_mark, weight, weight_of};
ghost use Rattle.std.specs.Prelude.{◌≡◌, ◌+◌, ◌||◌, [], Bool, cond, IsTrue, true, OnOk, OnErr};
ghost use Rattle.soar_sym.specs.Equality.{symbol_eq};
ghost use Rattle.soar_sym.specs.declared.symbol.Sym.{Sym as SymOf};

use soar_sym::{NoMemory, Sym};
use std::alloc::Global;
use std::collections::BTreeMap;
use std::marker::Model;

/// A place for the level of each symbol that was added.
#[derive(Drop)]
pub struct Marks {
    map: BTreeMap<Sym, Option<u32>>,
}

impl Model for Marks {
    ghost use Rattle.std.specs.Prelude.{List as ListOf, Option as OptionOf, ℕ};
    ghost use Rattle.soar_sym.specs.declared.symbol.Sym.{Sym as SymOf};

    ghost Value = { ListOf (SymOf × OptionOf ℕ) };

    ghost view = { λ marks. marks.map.entries };
}

impl Marks {
    /// No places.
    pub fn new(alloc: Global) -> Marks
        ensures { result ≡ [] }
    {
        Marks {
            map: BTreeMap::new(alloc),
        }
    }

    /// The level of a symbol.
    pub fn get(&self, id: Sym) -> Option<u32>
        ensures { result ≡ mark_at self.now id }
    {
        match self.map.get(&id) {
            Some(level) => *level,
            None => None,
        }
    }

    /// Whether there is a place for the level of a symbol.
    pub fn has(&self, id: Sym) -> bool
        ensures { result ≡ has_mark self.now id }
    {
        self.map.contains_key(&id)
    }

    /// Makes a place for the level of a symbol, where there is none. No level changes.
    pub fn add(&mut self, id: Sym) -> Result<(), NoMemory>
        ensures marks { (s : SymOf) → mark_at self.new s ≡ mark_at self.old s }
        ensures places { OnOk result ((s : SymOf) → has_mark self.new s ≡ (symbol_eq id s || has_mark self.old s)) }
        ensures err { OnErr result (self.new ≡ self.old) }
    {
        if !self.has(id) {
            self.map.insert(id, None)?;
        }
        Ok(())
    }

    /// Sets the level of a symbol at its place.
    pub fn set(&mut self, id: Sym, level: Option<u32>)
        requires { IsTrue (has_mark self.old id) }
        ensures marks { (s : SymOf) → mark_at self.new s ≡ cond (symbol_eq id s) level (mark_at self.old s) }
        ensures places { (s : SymOf) → has_mark self.new s ≡ has_mark self.old s }
        ensures weight { weight self.new + weight_of (mark_at self.old id) ≡ weight self.old + weight_of level }
    {
        if let Some(mark) = self.map.get_mut(&id) {
            *mark = level;
        }
    }
}
