ghost use Rattle.std.specs.Prelude.{◌≡◌, [], ◌∷◌, ◌++◌, filter, length, map, IfOk, OnOk, OnErr};
ghost use Rattle.std.specs.BTreeSet as set;
ghost use Rattle.defs_soar.specs.Preferences.{without_firings};
ghost use Rattle.defs_soar.specs.Trimming.{numbers_of};
ghost use Rattle.match_changes.specs.Told.{key_of};
ghost use Rattle.open_instances.specs.Keys.{key_cmp};
ghost use Rattle.live_firings.specs.Living.{AreNews, live_above, live_from, live_seen, without_numbers};

use crate::live::Live;
use crate::reading::{came, of_keys, settle, went};
use crate::store::Store;
use boxed_values::Boxed;
use match_changes::MatchKey;
use soar_settle::Prefs;
use soar_sym::{List, NoMemory};
use std::alloc::Global;
use std::collections::BTreeSet;
use std::collections::btree_map::Values;
use std::marker::Model;

/// The keys of firings that came, and of firings that went.
#[derive(Drop)]
pub struct News {
    pub came: List<MatchKey>,
    pub gone: List<MatchKey>,
}

/// The live firings in order of adding, and what they were when what came and went was told last.
#[derive(Drop)]
pub struct LiveFirings {
    store: Store,
    alloc: Global,
}

impl Model for LiveFirings {
    ghost use Rattle.std.specs.Prelude.{vec_len, vec_capacity};
    ghost use Rattle.std.specs.Map.{values_of};
    ghost use Rattle.live_firings.specs.Living.{Firings};
    ghost use Rattle.live_firings.specs.Store.{HasRoom, IsStore, told_rows};

    ghost Value = { Firings };

    ghost view = { λ f. record { list = values_of f.store.rows.entries; told = values_of (told_rows f.store.mark f.store.gone.items f.store.rows.entries) } };

    ghost invariant = { λ f. IsStore f.store.rows.entries f.store.index f.store.next f.store.mark × HasRoom f.store.rows.entries (vec_len f.store.gone) (vec_capacity f.store.gone) };
}

impl LiveFirings {
    /// No firings. What is kept gets its memory from `alloc`; making it takes none.
    pub fn new(alloc: Global) -> LiveFirings
        ensures { result ≡ record { list = []; told = [] } }
    {
        LiveFirings {
            store: Store::new(alloc),
            alloc,
        }
    }

    /// Adds a firing. That 2^64 - 1 were added before counts as want of memory.
    pub fn push(&mut self, firing: Live) -> Result<(), NoMemory>
        ensures ok { OnOk result (self.new ≡ record self.old { list = self.old.list ++ firing ∷ [] }) }
        ensures err { OnErr result (self.new ≡ self.old) }
    {
        self.store.add(self.alloc, firing)
    }

    /// Takes the firings of these numbers away. It takes no memory.
    pub fn drop_numbers(&mut self, numbers: &[u64])
        ensures { self.new ≡ record self.old { list = without_numbers numbers.now self.old.list } }
    {
        self.store.drop_numbers(numbers);
    }

    /// With the goals from a depth on go their live firings, and the instance-supported rows of these (Soar manual,
    /// chapter 2, support). What operators made stays until settling finds that no goal reaches it.
    pub fn leave_goals(&mut self, depth: usize, prefs: &mut Prefs)
        ensures rows { prefs.new ≡ record prefs.old { rows = without_firings prefs.old.rows (numbers_of (live_from depth (map live_seen self.old.list))) } }
        ensures live { map live_seen self.new.list ≡ live_above depth (map live_seen self.old.list) }
        ensures told { self.new.told ≡ self.old.told }
    {
        self.store.leave_from(depth, prefs);
    }

    /// How many firings there are.
    pub fn len(&self) -> usize
        ensures { result ≡ length self.now.list }
    {
        self.store.rows.len()
    }

    /// All firings, in order of adding.
    pub fn all(&self) -> Values<'_, u64, Boxed<Live>>
        ensures { result ≡ self.now.list }
    {
        self.store.rows.values()
    }

    /// Copies of the firings of these keys, in order of adding.
    pub fn of_keys(&self, alloc: Global, keys: &BTreeSet<MatchKey>) -> Result<List<Live>, NoMemory>
        ensures { IfOk result (λ found. found ≡ filter (λ l. set.contains key_cmp keys.now (key_of l.instance)) self.now.list) }
    {
        of_keys(alloc, &self.store, keys)
    }

    /// The keys of the firings that came and went since they were told last; from now on they count anew.
    pub fn take_news(&mut self, alloc: Global) -> Result<News, NoMemory>
        ensures news { IfOk result (λ news. AreNews self.old.told self.old.list news.came news.gone) }
        ensures ok { OnOk result (self.new ≡ record self.old { told = self.old.list }) }
        ensures err { OnErr result (self.new ≡ self.old) }
    {
        let came = came(alloc, &self.store)?;
        let gone = went(alloc, self.store.gone.as_slice())?;
        settle(&mut self.store);
        Ok(News { came, gone })
    }

    /// What came and went counts as told. It takes no memory.
    pub fn settle(&mut self)
        ensures { self.new ≡ record self.old { told = self.old.list } }
    {
        settle(&mut self.store);
    }
}
