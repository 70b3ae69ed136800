// The numbers of rows, by what rows are found.
ghost use Rattle.std.specs.Prelude.{◌≡◌, ℕ, ◌&&◌, true, false, OnOk, OnErr, IfOk, IfSome, IfNone, cond, filter_map};
ghost use Rattle.std.specs.BTreeMap.{IsOrdered};
ghost use Rattle.std.specs.List.{list_any};
ghost use Rattle.defs_soar.specs.Values.{is_kind, wish_eq};
ghost use Rattle.soar_prefs.specs.Places.{of_key, place_cmp, slot_cmp, triple_cmp};
ghost use Rattle.soar_prefs.specs.Store.{has, same_place, row_at, Marks, MarksOthers};
ghost use Rattle.soar_prefs.specs.declared.key.Key.{Key as KeyOf};

use crate::key::Key;
use crate::packed::PackedPreference;
use crate::places;
use crate::same::is_wish;
use defs_soar::{PrefKind, Preference, Wish};
use soar_sym::{List, NoMemory, Sym, Triple};
use std::alloc::Global;
use std::collections::BTreeMap;

/// The numbers of rows under each kind of key, each kind in a map of its own, so that a place takes no more than its key.
#[derive(Drop)]
pub struct Index {
    pub firings: BTreeMap<((bool, u64), u64), ()>,
    pub ids: BTreeMap<(Sym, u64), ()>,
    pub slots: BTreeMap<((Sym, Sym), u64), ()>,
    pub triples: BTreeMap<((Sym, Sym, Sym), u64), ()>,
}

/// No numbers. It takes no memory.
pub fn empty(alloc: Global) -> Index
    ensures { (q : KeyOf × ℕ) → has result q ≡ false }
{
    Index {
        firings: BTreeMap::new(alloc),
        ids: BTreeMap::new(alloc),
        slots: BTreeMap::new(alloc),
        triples: BTreeMap::new(alloc),
    }
}

/// The first number of a key.
pub fn first(index: &Index, key: Key) -> Option<u64>
    ensures some { IfSome result (λ n. has index.now (key, n) ≡ true) }
    ensures none { IfNone result ((n : ℕ) → has index.now (key, n) ≡ false) }
{
    match key {
        Key::Firing(support, firing) => places::first(&index.firings, (support, firing)),
        Key::Id(id) => places::first(&index.ids, id),
        Key::Variablized(id, attr) => places::first(&index.slots, (id, attr)),
        Key::Triple(id, attr, value) => places::first(&index.triples, (id, attr, value)),
    }
}

/// Puts a number under a key.
fn put(index: &mut Index, key: Key, number: u64) -> Result<(), NoMemory>
    ensures ok { OnOk result ((q : KeyOf × ℕ) → has index.new q ≡ cond (same_place (key, number) q) true (has index.old q)) }
    ensures err { OnErr result ((q : KeyOf × ℕ) → has index.new q ≡ has index.old q) }
{
    match key {
        Key::Firing(support, firing) => places::put(&mut index.firings, (support, firing), number),
        Key::Id(id) => places::put(&mut index.ids, id, number),
        Key::Variablized(id, attr) => places::put(&mut index.slots, (id, attr), number),
        Key::Triple(id, attr, value) => places::put(&mut index.triples, (id, attr, value), number),
    }
}

/// Takes a number from a key.
fn take(index: &mut Index, key: Key, number: u64)
    ensures { (q : KeyOf × ℕ) → has index.new q ≡ cond (same_place (key, number) q) false (has index.old q) }
{
    match key {
        Key::Firing(support, firing) => places::take(&mut index.firings, (support, firing), number),
        Key::Id(id) => places::take(&mut index.ids, id, number),
        Key::Variablized(id, attr) => places::take(&mut index.slots, (id, attr), number),
        Key::Triple(id, attr, value) => places::take(&mut index.triples, (id, attr, value), number),
    }
}

/// Puts the number of a row under its keys. Where memory is wanting it stands under some of them.
fn put_all(index: &mut Index, row: &Preference, number: u64) -> Result<(), NoMemory>
    ensures ok { OnOk result (Marks row.now number true index.old index.new) }
    ensures err { OnErr result (MarksOthers row.now number index.old index.new) }
{
    put(index, Key::Firing(row.operator_support, row.firing), number)?;
    put(index, Key::Id(row.wish.id), number)?;
    put(index, Key::Variablized(row.wish.id, row.wish.attr), number)?;
    put(
        index,
        Key::Triple(row.wish.id, row.wish.attr, row.wish.value),
        number,
    )
}

/// Takes the number of a row from its keys.
pub fn forget(index: &mut Index, row: &Preference, number: u64)
    ensures { Marks row.now number false index.old index.new }
{
    take(index, Key::Firing(row.operator_support, row.firing), number);
    take(index, Key::Id(row.wish.id), number);
    take(index, Key::Variablized(row.wish.id, row.wish.attr), number);
    take(
        index,
        Key::Triple(row.wish.id, row.wish.attr, row.wish.value),
        number,
    );
}

/// Puts the number of a row under its keys, or under none of them.
pub fn note(index: &mut Index, row: &Preference, number: u64) -> Result<(), NoMemory>
    ensures ok { OnOk result (Marks row.now number true index.old index.new) }
    ensures err { OnErr result (Marks row.now number false index.old index.new) }
{
    match put_all(index, row, number) {
        Ok(()) => Ok(()),
        Err(_) => {
            forget(index, row, number);
            Err(NoMemory)
        }
    }
}

/// The rows of a slot, in order of their numbers. It goes down the map of slots once.
pub fn rows_of(
    alloc: Global,
    index: &Index,
    rows: &BTreeMap<u64, PackedPreference>,
    id: Sym,
    attr: Sym,
) -> Result<List<Preference>, NoMemory>
    ensures rows { IfOk result (λ found. found ≡ filter_map (λ e. row_at rows.now.entries e.0.1) (of_key slot_cmp (id, attr) index.now.slots.entries)) }
    ensures ordered { OnOk result (IsOrdered (place_cmp slot_cmp) index.now.slots) }
{
    let mut found = List::new(alloc);
    let key = (id, attr);
    'numbers: for (place, _) in index.slots.range((key, 0)..) {
        if !places::is_of(place, key) {
            break 'numbers;
        }
        if let Some(row) = rows.get(&place.1) {
            found.push(row.preference())?;
        }
    }
    Ok(found)
}

/// Whether a wish is among those of the operator-supported rows of its triple. It goes down the map of triples once.
pub fn has_wish(index: &Index, rows: &BTreeMap<u64, PackedPreference>, wish: Wish) -> bool
    ensures found { result ≡ list_any (λ q. q.operator_support && wish_eq q.wish wish) (filter_map (λ e. row_at rows.now.entries e.0.1) (of_key triple_cmp (wish.id, wish.attr, wish.value) index.now.triples.entries)) }
    ensures ordered { IsOrdered (place_cmp triple_cmp) index.now.triples }
{
    let key = (wish.id, wish.attr, wish.value);
    'numbers: for (place, _) in index.triples.range((key, 0)..) {
        if !places::is_of(place, key) {
            return false;
        }
        if let Some(packed) = rows.get(&place.1) {
            let row = packed.preference();
            if row.operator_support && is_wish(row.wish, wish) {
                return true;
            }
        }
    }
    false
}

/// Whether a row of the triple has the kind. It goes down the map of triples once.
pub fn has_kind(
    index: &Index,
    rows: &BTreeMap<u64, PackedPreference>,
    triple: Triple,
    kind: PrefKind,
) -> bool
    ensures found { result ≡ list_any (λ q. is_kind q.wish.kind kind) (filter_map (λ e. row_at rows.now.entries e.0.1) (of_key triple_cmp (triple.id, triple.attr, triple.value) index.now.triples.entries)) }
    ensures ordered { IsOrdered (place_cmp triple_cmp) index.now.triples }
{
    let key = (triple.id, triple.attr, triple.value);
    'numbers: for (place, _) in index.triples.range((key, 0)..) {
        if !places::is_of(place, key) {
            return false;
        }
        if let Some(row) = rows.get(&place.1) {
            if row.preference().wish.kind.is(kind) {
                return true;
            }
        }
    }
    false
}
