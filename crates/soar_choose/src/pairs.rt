// The pairs of values that rows call indifferent to each other.
ghost use Rattle.std.specs.Prelude.{◌≡◌, ◌||◌, ◌&&◌, [], IfOk, OnOk};
ghost use Rattle.std.specs.List.{list_all};
ghost use Rattle.soar_sym.specs.Equality.{symbol_eq};
ghost use Rattle.soar_sym.specs.declared.symbol.Sym.{Sym as SymOf};
ghost use Rattle.defs_soar.specs.Choice.{says_of};
ghost use Rattle.defs_soar.specs.declared.preference.PrefKind.TheVariants as kind;
ghost use Rattle.soar_choose.specs.Parts.{says};
ghost use Rattle.soar_choose.specs.Told.{has_pair, is_paired};

use defs_soar::{PrefKind, Preference};
use soar_sym::{NoMemory, Sym};
use std::alloc::Global;
use std::collections::BTreeSet;
use std::marker::Model;

/// Pairs of which one can tell in short time whether one is among them.
#[derive(Drop)]
pub(crate) struct PairSet {
    tree: BTreeSet<(Sym, Sym)>,
}

impl Model for PairSet {
    ghost use Rattle.std.specs.Prelude.{List as ListOf};
    ghost use Rattle.soar_sym.specs.declared.symbol.Sym.{Sym as SymOf};

    ghost Value = { ListOf (SymOf × SymOf) };

    ghost view = { λ set. set.tree.keys };
}

impl PairSet {
    /// No pairs. It takes no memory.
    fn new(alloc: Global) -> PairSet
        ensures { result ≡ [] }
    {
        PairSet {
            tree: BTreeSet::new(alloc),
        }
    }

    /// Whether a pair is among them.
    fn has(&self, a: Sym, b: Sym) -> bool
        ensures { result ≡ has_pair self.now a b }
    {
        self.tree.contains(&(a, b))
    }

    /// Adds a pair, where it is new.
    fn add(&mut self, a: Sym, b: Sym) -> Result<(), NoMemory>
        ensures { OnOk result ((x y : SymOf) → has_pair self.new x y ≡ ((symbol_eq a x && symbol_eq b y) || has_pair self.old x y)) }
    {
        self.tree.insert((a, b))?;
        Ok(())
    }

    /// Adds the value of a row and that to which it is indifferent.
    fn add_row(&mut self, row: &Preference) -> Result<(), NoMemory>
        ensures { OnOk result ((x y : SymOf) → has_pair self.new x y ≡ (says kind.IndifferentTo x y row.now || has_pair self.old x y)) }
    {
        match (row.wish.kind, row.wish.referent) {
            (PrefKind::IndifferentTo, Some(other)) => self.add(row.wish.value, other),
            _ => Ok(()),
        }
    }

    /// The values that the rows call indifferent, each with that to which it is.
    pub(crate) fn of(alloc: Global, rows: &[Preference]) -> Result<PairSet, NoMemory>
        ensures { IfOk result (λ set. (x y : SymOf) → has_pair set x y ≡ says_of rows.now kind.IndifferentTo x y) }
    {
        let mut set = PairSet::new(alloc);
        'rows: for row in rows {
            set.add_row(row)?;
        }
        Ok(set)
    }

    /// Whether one value is called indifferent to another, or the other to it.
    fn is_paired(&self, a: Sym, b: Sym) -> bool
        ensures { result ≡ is_paired self.now a b }
    {
        self.has(a, b) || self.has(b, a)
    }

    /// Whether a value makes a pair with each of others.
    pub(crate) fn is_paired_with_all(&self, value: Sym, others: &[Sym]) -> bool
        ensures { result ≡ list_all (is_paired self.now value) others.now }
    {
        others.iter().all(|other| self.is_paired(value, *other))
    }
}
