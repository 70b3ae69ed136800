ghost use Rattle.std.specs.Prelude.{◌≡◌, [], ◌∷◌, IfOk, OnOk, OnErr, length};
ghost use Rattle.defs_soar.specs.Preferences.{slot_of, without_firings, without_id};
ghost use Rattle.soar_prefs.specs.Memory.{Adds, CoversRows, hold_up, without_triple};

use crate::fault::PrefFault;
use crate::journal;
use crate::key::Key;
use crate::packed::PackedPreference;
use crate::store::Store;
use defs_soar::Preference;
use soar_sym::{List, NoMemory, Sym, Triple};
use std::alloc::Global;
use std::collections::btree_map::Values;
use std::marker::Model;

/// Preference memory: rows in order of adding, at most so many.
#[derive(Drop)]
pub struct Prefs {
    store: Store,
    limit: u32,
}

impl Model for Prefs {
    ghost use Rattle.std.specs.Prelude.{vec_len, vec_capacity};
    ghost use Rattle.std.specs.Map.{values_of};
    ghost use Rattle.soar_prefs.specs.Memory.{PreferenceMemory};
    ghost use Rattle.soar_prefs.specs.Store.{HasRoom, IsStore, undone};

    ghost Value = { PreferenceMemory };

    ghost view = { λ p. record { rows = values_of p.store.rows.entries; limit = p.limit; settled = values_of (undone p.store.journal.items p.store.rows.entries) } };

    ghost invariant = { λ p. IsStore p.store.rows.entries p.store.numbers p.store.next × HasRoom p.store.rows.entries (vec_len p.store.journal) (vec_capacity p.store.journal) };
}

impl Prefs {
    /// No rows, and room for so many.
    pub fn new(alloc: Global, limit: u32) -> Result<Prefs, NoMemory>
        ensures { IfOk result (λ prefs. prefs ≡ record { rows = []; limit = limit; settled = [] }) }
    {
        Ok(Prefs {
            store: Store::new(alloc),
            limit,
        })
    }

    /// Adds a row. An operator-supported row that differs from a kept one in the firing alone is not added.
    pub fn add(&mut self, row: Preference) -> Result<(), PrefFault>
        ensures answer { Adds self.old self.new row result }
        ensures err { OnErr result (self.new ≡ self.old) }
    {
        if self.store.is_kept_already(&row) {
            return Ok(());
        }
        if self.store.rows.len() >= self.limit as usize {
            return Err(PrefFault::Full);
        }
        match self.store.add(row) {
            Ok(()) => Ok(()),
            Err(_) => Err(PrefFault::NoMemory),
        }
    }

    /// Takes the instance-supported rows of a firing away.
    pub fn retract(&mut self, firing: u64)
        ensures { self.new ≡ record self.old { rows = without_firings self.old.rows (firing ∷ []) } }
    {
        self.store.drop_key(Key::Firing(false, firing));
    }

    /// Takes all rows of a triple away.
    pub fn reject_now(&mut self, triple: Triple)
        ensures { self.new ≡ record self.old { rows = without_triple self.old.rows triple } }
    {
        self.store
            .drop_key(Key::Triple(triple.id, triple.attr, triple.value));
    }

    /// Takes the rows of an identifier away.
    pub fn drop_id(&mut self, id: Sym)
        ensures { self.new ≡ record self.old { rows = without_id self.old.rows id } }
    {
        self.store.drop_key(Key::Id(id));
    }

    /// The triples, marks apart, whose rows came or went since changes were last taken; from now on changes count anew. A triple may stand there more than once, and its mark is off.
    pub fn take_changes(&mut self, alloc: Global) -> Result<List<Triple>, NoMemory>
        ensures covers { IfOk result (λ triples. CoversRows triples self.old.settled self.old.rows) }
        ensures ok { OnOk result (self.new ≡ record self.old { settled = self.old.rows }) }
        ensures err { OnErr result (self.new ≡ self.old) }
    {
        let triples = journal::triples(alloc, self.store.journal.as_slice())?;
        self.store.journal.clear();
        Ok(triples)
    }

    /// Whether rows hold a triple up: a goal's candidate, with its mark, by an acceptable or a require row; any other triple, without mark, by an acceptable row where none rejects it.
    pub fn holds(&self, triple: Triple, operator: bool) -> bool
        ensures { result ≡ hold_up operator self.now.rows triple }
    {
        if operator {
            triple.accept && self.store.is_candidate(triple)
        } else {
            !triple.accept && self.store.is_accepted(triple)
        }
    }

    /// How many rows there are.
    pub fn len(&self) -> usize
        ensures { result ≡ length self.now.rows }
    {
        self.store.rows.len()
    }

    /// All rows, in order of adding.
    pub fn rows(&self) -> Values<'_, u64, PackedPreference>
        ensures { result ≡ self.now.rows }
    {
        self.store.rows.values()
    }

    /// Copies of all rows, in order of adding.
    pub fn all(&self, alloc: Global) -> Result<List<Preference>, NoMemory>
        ensures { IfOk result (λ rows. rows ≡ self.now.rows) }
    {
        self.store.all(alloc)
    }

    /// Copies of the rows of a slot, in order of adding.
    pub fn slot(&self, alloc: Global, id: Sym, attr: Sym) -> Result<List<Preference>, NoMemory>
        ensures { IfOk result (λ rows. rows ≡ slot_of self.now.rows id attr) }
    {
        self.store.of_slot(alloc, id, attr)
    }
}
