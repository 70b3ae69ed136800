// The sums of the numeric preferences, by value.
ghost use Rattle.std.specs.Prelude.{◌≡◌, ◌≤◌, ◌+ℤ◌, [], cond, length, IfOk, OnOk};
ghost use Rattle.soar_sym.specs.Equality.{symbol_eq};
ghost use Rattle.soar_sym.specs.declared.symbol.Sym.{Sym as SymOf};
ghost use Rattle.defs_soar.specs.Choice.{number_in_row, sum_of};
ghost use Rattle.soar_choose.specs.Rows.{AreInRange, IsNumberInRange, IsWithin};
ghost use Rattle.soar_choose.specs.Told.{sum_at};

use defs_soar::{PrefKind, Preference};
use soar_sym::{NoMemory, Sym};
use std::alloc::Global;
use std::collections::BTreeMap;
use std::marker::Model;

/// A sum for each value that was added, and 0 for all others.
#[derive(Drop)]
pub(crate) struct Sums {
    map: BTreeMap<Sym, i64>,
}

impl Model for Sums {
    ghost use Rattle.std.specs.Prelude.{List as ListOf, ℤ};
    ghost use Rattle.soar_sym.specs.declared.symbol.Sym.{Sym as SymOf};

    ghost Value = { ListOf (SymOf × ℤ) };

    ghost view = { λ sums. sums.map.entries };
}

impl Sums {
    /// No sums. It takes no memory.
    fn new(alloc: Global) -> Sums
        ensures { result ≡ [] }
    {
        Sums {
            map: BTreeMap::new(alloc),
        }
    }

    /// The sum of a value.
    pub(crate) fn at(&self, value: Sym) -> i64
        ensures { result ≡ sum_at self.now value }
    {
        match self.map.get(&value) {
            Some(sum) => *sum,
            None => 0,
        }
    }

    /// Adds a number to the sum of a value.
    fn add(&mut self, value: Sym, number: i64) -> Result<(), NoMemory>
        requires sum { IsWithin 2000000000000000 (sum_at self.old value) }
        requires number { IsWithin 1000000000 number }
        ensures { OnOk result ((s : SymOf) → sum_at self.new s ≡ cond (symbol_eq value s) (number +ℤ sum_at self.old value) (sum_at self.old s)) }
    {
        let sum = number + self.at(value);
        self.map.insert(value, sum)?;
        Ok(())
    }

    /// Adds the number of a row to the sum of its value.
    fn add_row(&mut self, row: &Preference) -> Result<(), NoMemory>
        requires sums { (s : SymOf) → IsWithin 2000000000000000 (sum_at self.old s) }
        requires number { IsNumberInRange row.now.wish.kind row.now.wish.referent }
        ensures { OnOk result ((s : SymOf) → sum_at self.new s ≡ number_in_row s row.now +ℤ sum_at self.old s) }
    {
        match (row.wish.kind, row.wish.referent) {
            (PrefKind::Numeric, Some(Sym::Int(number))) => self.add(row.wish.value, number),
            _ => Ok(()),
        }
    }

    /// The sums of the numeric preferences among the rows.
    pub(crate) fn of(alloc: Global, rows: &[Preference]) -> Result<Sums, NoMemory>
        requires few { length rows.now ≤ 1000000 }
        requires range { AreInRange rows.now }
        ensures { IfOk result (λ sums. (s : SymOf) → sum_at sums s ≡ sum_of rows.now s) }
    {
        let mut sums = Sums::new(alloc);
        'rows: for row in rows {
            sums.add_row(row)?;
        }
        Ok(sums)
    }
}
