// The identifiers to which each symbol leads.
ghost use Rattle.level_graph.specs.Listed.{listed, linked};
ghost use Rattle.std.specs.Prelude.{◌≡◌, ◌||◌, ◌&&◌, [], OnOk};
ghost use Rattle.soar_sym.specs.Equality.{symbol_eq};
ghost use Rattle.soar_sym.specs.declared.symbol.Sym.{Sym as SymOf};

use soar_sym::{List, NoMemory, Sym};
use std::alloc::Global;
use std::collections::BTreeMap;
use std::marker::Model;

/// For each symbol the identifiers to which it leads, each as often as it was added.
#[derive(Drop)]
pub struct Links {
    map: BTreeMap<Sym, List<Sym>>,
    alloc: Global,
}

impl Model for Links {
    ghost use Rattle.std.specs.Prelude.{List as ListOf};
    ghost use Rattle.soar_sym.specs.declared.symbol.Sym.{Sym as SymOf};

    ghost Value = { ListOf (SymOf × ListOf SymOf) };

    ghost view = { λ links. links.map.entries };
}

impl Links {
    /// No links.
    pub fn new(alloc: Global) -> Links
        ensures { result ≡ [] }
    {
        Links {
            map: BTreeMap::new(alloc),
            alloc,
        }
    }

    /// The identifiers to which a symbol leads.
    pub fn of(&self, id: Sym) -> &[Sym]
        ensures { result.now ≡ listed self.now id }
    {
        match self.map.get(&id) {
            Some(values) => values.as_slice(),
            None => &[],
        }
    }

    /// One link more.
    pub fn add(&mut self, id: Sym, value: Sym) -> Result<(), NoMemory>
        ensures { OnOk result ((x y : SymOf) → linked self.new x y ≡ ((symbol_eq x id && symbol_eq y value) || linked self.old x y)) }
    {
        if self.of(id).is_empty() {
            return self.put_first(id, value);
        }
        if let Some(values) = self.map.get_mut(&id) {
            values.push(value)?;
        }
        Ok(())
    }

    /// The first link of a symbol.
    fn put_first(&mut self, id: Sym, value: Sym) -> Result<(), NoMemory>
        requires { listed self.old id ≡ [] }
        ensures { OnOk result ((x y : SymOf) → linked self.new x y ≡ ((symbol_eq x id && symbol_eq y value) || linked self.old x y)) }
    {
        let mut values = List::new(self.alloc);
        values.push(value)?;
        self.map.insert(id, values)?;
        Ok(())
    }
}
