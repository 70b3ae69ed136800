// Rows by number, found by their keys.
ghost use Rattle.std.specs.Prelude.{◌≡◌, ◌∷◌, ◌++◌, [], ◌&&◌, ◌||◌, not, filter, length, OnOk, OnErr, IfOk, vec_len, vec_capacity};
ghost use Rattle.std.specs.BTreeMap.{is_at};
ghost use Rattle.std.specs.Map.{values_of, remove_entry};
ghost use Rattle.std.specs.Ordering.{nat_cmp};
ghost use Rattle.defs_soar.specs.declared.preference.PrefKind.TheVariants as kind;
ghost use Rattle.defs_soar.specs.Preferences.{is_kept_already, slot_of};
ghost use Rattle.settling_laws.specs.Changes.{has_row};
ghost use Rattle.soar_prefs.specs.Store.{HasRoom, IsStore, is_of, undone};

use crate::event::Event;
use crate::index::{self, Index};
use crate::journal;
use crate::key::Key;
use crate::packed::PackedPreference;
use defs_soar::{PrefKind, Preference};
use soar_sym::{List, NoMemory, Sym, Triple};
use std::alloc::Global;
use std::collections::BTreeMap;

/// Rows in order of adding, and in its journal those that came or went. The journal has room for each row to go.
#[derive(Drop)]
pub struct Store {
    pub rows: BTreeMap<u64, PackedPreference>,
    pub numbers: Index,
    pub next: u64,
    pub journal: Vec<Event>,
}

impl Store {
    /// No rows. It takes no memory.
    pub fn new(alloc: Global) -> Store
        ensures rows { result.rows.entries ≡ [] }
        ensures sound { IsStore result.rows.entries result.numbers result.next }
        ensures journal { result.journal.items ≡ [] }
        ensures room { HasRoom result.rows.entries (vec_len result.journal) (vec_capacity result.journal) }
    {
        Store {
            rows: BTreeMap::new(alloc),
            numbers: index::empty(alloc),
            next: 0,
            journal: Vec::new(alloc),
        }
    }

    /// Adds a row. That 2^64 - 1 rows were added before counts as want of memory.
    pub fn add(&mut self, row: Preference) -> Result<(), NoMemory>
        requires sound { IsStore self.old.rows.entries self.old.numbers self.old.next }
        requires room { HasRoom self.old.rows.entries (vec_len self.old.journal) (vec_capacity self.old.journal) }
        ensures sound { IsStore self.new.rows.entries self.new.numbers self.new.next }
        ensures room { HasRoom self.new.rows.entries (vec_len self.new.journal) (vec_capacity self.new.journal) }
        ensures settled { undone self.new.journal.items self.new.rows.entries ≡ undone self.old.journal.items self.old.rows.entries }
        ensures ok { OnOk result (values_of self.new.rows.entries ≡ values_of self.old.rows.entries ++ row ∷ []) }
        ensures err { OnErr result (self.new.rows.entries ≡ self.old.rows.entries) }
    {
        let number = self.next;
        let Some(next) = number.checked_add(1) else {
            return Err(NoMemory);
        };
        // For this row to come, and for it and all others to go.
        self.journal.reserve(self.rows.len() + 2)?;
        index::note(&mut self.numbers, &row, number)?;
        match self.rows.insert(number, PackedPreference::new(row)) {
            Ok(_) => {
                self.next = next;
                journal::append(&mut self.journal, number, row, true);
                Ok(())
            }
            Err(_) => {
                index::forget(&mut self.numbers, &row, number);
                Err(NoMemory)
            }
        }
    }

    /// Takes a row away.
    fn take(&mut self, number: u64)
        requires sound { IsStore self.old.rows.entries self.old.numbers self.old.next }
        requires room { HasRoom self.old.rows.entries (vec_len self.old.journal) (vec_capacity self.old.journal) }
        ensures sound { IsStore self.new.rows.entries self.new.numbers self.new.next }
        ensures room { HasRoom self.new.rows.entries (vec_len self.new.journal) (vec_capacity self.new.journal) }
        ensures settled { undone self.new.journal.items self.new.rows.entries ≡ undone self.old.journal.items self.old.rows.entries }
        ensures rows { self.new.rows.entries ≡ remove_entry (is_at (nat_cmp number)) self.old.rows.entries }
    {
        if let Some(packed) = self.rows.remove(&number) {
            let row = packed.preference();
            index::forget(&mut self.numbers, &row, number);
            journal::append(&mut self.journal, number, row, false);
        }
    }

    /// Takes the rows of a key away.
    pub fn drop_key(&mut self, key: Key)
        requires sound { IsStore self.old.rows.entries self.old.numbers self.old.next }
        requires room { HasRoom self.old.rows.entries (vec_len self.old.journal) (vec_capacity self.old.journal) }
        ensures sound { IsStore self.new.rows.entries self.new.numbers self.new.next }
        ensures room { HasRoom self.new.rows.entries (vec_len self.new.journal) (vec_capacity self.new.journal) }
        ensures settled { undone self.new.journal.items self.new.rows.entries ≡ undone self.old.journal.items self.old.rows.entries }
        ensures rows { values_of self.new.rows.entries ≡ filter (λ row. not (is_of key row)) (values_of self.old.rows.entries) }
    {
        'rows: while let Some(number) = index::first(&self.numbers, key) {
            self.take(number);
        }
    }

    /// Whether the row is there already. Only an operator-supported one costs a search.
    pub fn is_kept_already(&self, row: &Preference) -> bool
        requires { IsStore self.now.rows.entries self.now.numbers self.now.next }
        ensures { result ≡ is_kept_already (values_of self.now.rows.entries) row.now }
    {
        row.operator_support && index::has_wish(&self.numbers, &self.rows, row.wish)
    }

    /// Whether a row of the kind has the triple, marks apart.
    fn has_kind(&self, triple: Triple, kind: PrefKind) -> bool
        requires { IsStore self.now.rows.entries self.now.numbers self.now.next }
        ensures { result ≡ has_row kind (values_of self.now.rows.entries) triple }
    {
        index::has_kind(&self.numbers, &self.rows, triple, kind)
    }

    /// Whether an acceptable or a require row has the triple.
    pub fn is_candidate(&self, triple: Triple) -> bool
        requires { IsStore self.now.rows.entries self.now.numbers self.now.next }
        ensures { result ≡ (has_row kind.Accept (values_of self.now.rows.entries) triple || has_row kind.Require (values_of self.now.rows.entries) triple) }
    {
        self.has_kind(triple, PrefKind::Accept) || self.has_kind(triple, PrefKind::Require)
    }

    /// Whether an acceptable row has the triple, and no reject row.
    pub fn is_accepted(&self, triple: Triple) -> bool
        requires { IsStore self.now.rows.entries self.now.numbers self.now.next }
        ensures { result ≡ (has_row kind.Accept (values_of self.now.rows.entries) triple && not (has_row kind.Reject (values_of self.now.rows.entries) triple)) }
    {
        self.has_kind(triple, PrefKind::Accept) && !self.has_kind(triple, PrefKind::Reject)
    }

    /// Copies of all rows, in order of adding.
    pub fn all(&self, alloc: Global) -> Result<List<Preference>, NoMemory>
        ensures { IfOk result (λ rows. rows ≡ values_of self.now.rows.entries) }
    {
        let mut all = List::new(alloc);
        'rows: for row in self.rows.values() {
            all.push(row.preference())?;
        }
        Ok(all)
    }

    /// Copies of the rows of a slot, in order of adding.
    pub fn of_slot(&self, alloc: Global, id: Sym, attr: Sym) -> Result<List<Preference>, NoMemory>
        requires { IsStore self.now.rows.entries self.now.numbers self.now.next }
        ensures { IfOk result (λ rows. rows ≡ slot_of (values_of self.now.rows.entries) id attr) }
    {
        index::rows_of(alloc, &self.numbers, &self.rows, id, attr)
    }
}
