ghost use Rattle.std.specs.Prelude.{◌≡◌, ◌||◌, [], OnOk};
ghost use Rattle.soar_sym.specs.Equality.{symbol_eq};
ghost use Rattle.soar_sym.specs.declared.symbol.Sym.{Sym as SymOf};
ghost use Rattle.defs_soar.specs.Sorted.{has_symbol};

use soar_sym::{NoMemory, Sym};
use std::alloc::Global;
use std::collections::BTreeSet;
use std::marker::Model;

/// Symbols of which one can tell in short time whether one is among them.
#[derive(Drop)]
pub struct SymbolSet {
    tree: BTreeSet<Sym>,
}

impl Model for SymbolSet {
    ghost use Rattle.std.specs.Prelude.{List as ListOf};
    ghost use Rattle.soar_sym.specs.declared.symbol.Sym.{Sym as SymOf};

    ghost Value = { ListOf SymOf };

    ghost view = { λ set. set.tree.keys };
}

impl SymbolSet {
    /// No symbols. It takes no memory.
    pub fn new(alloc: Global) -> SymbolSet
        ensures { result ≡ [] }
    {
        SymbolSet {
            tree: BTreeSet::new(alloc),
        }
    }

    /// Whether a symbol is among them.
    pub fn has(&self, symbol: Sym) -> bool
        ensures { result ≡ has_symbol self.now symbol }
    {
        self.tree.contains(&symbol)
    }

    /// Adds a symbol, where it is new.
    pub fn add(&mut self, symbol: Sym) -> Result<(), NoMemory>
        ensures { OnOk result ((s : SymOf) → has_symbol self.new s ≡ (symbol_eq s symbol || has_symbol self.old s)) }
    {
        self.tree.insert(symbol)?;
        Ok(())
    }
}
