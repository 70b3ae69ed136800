// The rows of a node by what variables stand for.
ghost use Rattle.std.specs.Prelude.{◌≡◌, ◌↔◌, ◌⊎◌, ◌≢◌, [], map, filter, OnOk, OnErr, IfOk};
ghost use Rattle.std.specs.BTreeMap.{IsOrdered};
ghost use Rattle.std.specs.Map.{keys_of};
ghost use Rattle.defs_match.specs.Laws.{IsIn};
ghost use Rattle.node_memory.specs.Runs.{front_while};
ghost use Rattle.node_memory.specs.Symbols.{SymbolKeyOf, symbol_cmp, is_of, least_of, from_least};

use crate::packed::PackedSymbolKey;
use row_tags::RowTags;
use soar_sym::{List, NoMemory, Sym};
use std::alloc::Global;
use std::collections::BTreeMap;
use std::marker::Model;

/// The variables by which a join finds rows: that of its identifier, and that of its value.
#[derive(Clone, Copy, PartialEq, Eq, PartialOrd, Ord)]
pub struct Joined {
    pub id: Option<u32>,
    pub value: Option<u32>,
}

/// What these variables stand for: nothing where there is none, or it is not bound.
#[derive(Clone, Copy, PartialEq, Eq, PartialOrd, Ord)]
pub struct Symbols {
    pub id: Option<Sym>,
    pub value: Option<Sym>,
}

/// What variables stand for in the row of these tags.
#[derive(Drop)]
pub struct SymbolKey {
    pub joined: Joined,
    pub symbols: Symbols,
    pub tags: RowTags,
}

/// The tags of rows, by variables and what they stand for. What one change costs grows with the logarithm of their number,
/// and what a look-up costs with that and what it finds.
#[derive(Drop)]
pub struct SymbolIndex {
    keys: BTreeMap<PackedSymbolKey, ()>,
}

impl Model for SymbolIndex {
    ghost use Rattle.std.specs.Prelude.{List as ListOf};
    ghost use Rattle.std.specs.Map.{keys_of};
    ghost use Rattle.node_memory.specs.Symbols.{SymbolKeyOf};

    ghost Value = { ListOf SymbolKeyOf };

    ghost view = { λ a. keys_of a.keys.entries };
}

/// The tags under these variables and what they stand for, by a walk over their keys.
fn run_of(
    alloc: Global,
    keys: &BTreeMap<PackedSymbolKey, ()>,
    joined: Joined,
    symbols: Symbols,
) -> Result<Vec<List<u32>>, NoMemory>
    ensures run { IfOk result (λ v. v.items ≡ map (λ e. e.0.tags) (front_while (λ e. is_of joined symbols e.0) (from_least (least_of joined symbols) keys.now.entries))) }
    ensures ordered { OnOk result (IsOrdered symbol_cmp keys.now) }
{
    let _count = keys.len();
    let mut out = Vec::new(alloc);
    let asked = PackedSymbolKey::new(joined, symbols, RowTags::new(List::new(alloc)));
    let least = PackedSymbolKey::new(joined, symbols, RowTags::new(List::new(alloc)));
    'run: for (key, _) in keys.range(least..) {
        if !key.is_beside(&asked) {
            break 'run;
        }
        out.push(List::from_slice(alloc, key.tags().as_slice())?)?;
    }
    Ok(out)
}

impl SymbolIndex {
    /// No rows. It takes no memory.
    pub fn new(alloc: Global) -> SymbolIndex
        ensures { result ≡ [] }
    {
        SymbolIndex {
            keys: BTreeMap::new(alloc),
        }
    }

    /// The tags of the rows in which these variables stand for these symbols.
    pub fn with_symbols(
        &self,
        alloc: Global,
        joined: Joined,
        symbols: Symbols,
    ) -> Result<Vec<List<u32>>, NoMemory>
        ensures { IfOk result (λ v. v.items ≡ map (λ k. k.tags) (filter (is_of joined symbols) self.now)) }
    {
        run_of(alloc, &self.keys, joined, symbols)
    }

    /// Takes in a key.
    pub fn add(&mut self, key: PackedSymbolKey) -> Result<(), NoMemory>
        ensures ok { OnOk result ((x : SymbolKeyOf) → IsIn x self.new ↔ ((key ≡ x) ⊎ IsIn x self.old)) }
        ensures err { OnErr result (self.new ≡ self.old) }
    {
        self.keys.insert(key, ())?;
        Ok(())
    }

    /// Takes a key out.
    pub fn remove(&mut self, key: &PackedSymbolKey)
        ensures { (x : SymbolKeyOf) → IsIn x self.new ↔ (IsIn x self.old × (key.now ≢ x)) }
    {
        let _count = self.keys.len();
        self.keys.remove(key);
    }
}
