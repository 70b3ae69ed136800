// The firings of keys, and what came and went.
ghost use Rattle.std.specs.Prelude.{◌≡◌, filter, filter_map, map, IfOk, vec_len, vec_capacity};
ghost use Rattle.std.specs.BTreeSet as set;
ghost use Rattle.std.specs.Map.{values_of};
ghost use Rattle.std.specs.Ordering.{nat_cmp};
ghost use Rattle.match_changes.specs.Told.{key_of};
ghost use Rattle.open_instances.specs.Keys.{key_cmp};
ghost use Rattle.live_firings.specs.Living.{keys_of};
ghost use Rattle.live_firings.specs.Store.{HasRoom, IsStore, ArePlacesOf, from_mark, match_of, row_at, told_rows};

use crate::index::{Matches, add_places};
use crate::live::{Live, copy_of};
use crate::store::Store;
use boxed_values::Boxed;
use match_changes::MatchKey;
use open_instances::key_of;
use soar_sym::{List, NoMemory};
use std::alloc::Global;
use std::collections::{BTreeMap, BTreeSet};

/// Copies of the firings of these keys, in order of adding.
pub fn of_keys(
    alloc: Global,
    store: &Store,
    keys: &BTreeSet<MatchKey>,
) -> Result<List<Live>, NoMemory>
    requires { IsStore store.now.rows.entries store.now.index store.now.next store.now.mark }
    ensures { IfOk result (λ found. found ≡ filter (λ l. set.contains key_cmp keys.now (match_of l)) (values_of store.now.rows.entries)) }
{
    let places = places_of(alloc, &store.index.matches, keys)?;
    places_are_ordered(&places);
    at_places(alloc, &store.rows, &places)
}

/// The places of these keys.
fn places_of(
    alloc: Global,
    matches: &Matches,
    keys: &BTreeSet<MatchKey>,
) -> Result<BTreeSet<u64>, NoMemory>
    ensures { IfOk result (ArePlacesOf keys.now.keys matches.now.entries) }
{
    let mut places = BTreeSet::new(alloc);
    'keys: for key in keys.iter() {
        add_places(alloc, matches, key, &mut places)?;
    }
    Ok(places)
}

/// Places are in order.
fn places_are_ordered(places: &BTreeSet<u64>)
    ensures { set.IsOrdered nat_cmp places.now }
{
    let _ = places.iter();
}

/// Copies of the firings at these places.
fn at_places(
    alloc: Global,
    rows: &BTreeMap<u64, Boxed<Live>>,
    places: &BTreeSet<u64>,
) -> Result<List<Live>, NoMemory>
    ensures { IfOk result (λ found. found ≡ filter_map (row_at rows.now.entries) places.now.keys) }
{
    let mut found = List::from_vec(Vec::with_capacity(alloc, places.len())?);
    'places: for place in places.iter() {
        if let Some(firing) = rows.get(place) {
            found.push(copy_of(alloc, firing)?)?;
        }
    }
    Ok(found)
}

/// The keys of the firings that came since they were told.
pub fn came(alloc: Global, store: &Store) -> Result<List<MatchKey>, NoMemory>
    ensures { IfOk result (λ came. came ≡ keys_of (values_of (from_mark store.now.mark store.now.rows.entries))) }
{
    let most = store
        .next
        .saturating_sub(store.mark)
        .min(store.rows.len() as u64);
    let mut came = List::from_vec(Vec::with_capacity(alloc, most as usize)?);
    'rows: for (_, firing) in store.rows.range(store.mark..) {
        came.push(key_of(alloc, &firing.instance)?)?;
    }
    Ok(came)
}

/// The keys of the firings that went since they were told.
pub fn went(alloc: Global, gone: &[(u64, Live)]) -> Result<List<MatchKey>, NoMemory>
    ensures { IfOk result (λ went. went ≡ map (λ g. key_of g.1.instance) gone.now) }
{
    let mut went = List::from_vec(Vec::with_capacity(alloc, gone.len())?);
    'gone: for (_, firing) in gone {
        went.push(key_of(alloc, &firing.instance)?)?;
    }
    Ok(went)
}

/// What is there is what is told now. It takes no memory.
pub fn settle(store: &mut Store)
    requires sound { IsStore store.old.rows.entries store.old.index store.old.next store.old.mark }
    requires room { HasRoom store.old.rows.entries (vec_len store.old.gone) (vec_capacity store.old.gone) }
    ensures sound { IsStore store.new.rows.entries store.new.index store.new.next store.new.mark }
    ensures room { HasRoom store.new.rows.entries (vec_len store.new.gone) (vec_capacity store.new.gone) }
    ensures told { told_rows store.new.mark store.new.gone.items store.new.rows.entries ≡ store.old.rows.entries }
    ensures rows { store.new.rows.entries ≡ store.old.rows.entries }
{
    store.gone.clear();
    store.mark = store.next;
}
