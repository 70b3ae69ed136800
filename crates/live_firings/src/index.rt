// The places of firings, by what they are found.
ghost use Rattle.std.specs.Prelude.{◌≡◌, ◌^◌, ◌<◌, ◌≤◌, ◌||◌, ◌==◌, ℕ, [], true, false, IfOk, OnOk, OnErr, IfSome, IfNone};
ghost use Rattle.std.specs.List.{list_any};
ghost use Rattle.std.specs.Ordering.{nat_cmp};
ghost use Rattle.match_changes.specs.Told.{key_of};
ghost use Rattle.open_instances.specs.Keys.{key_cmp};
ghost use Rattle.live_firings.specs.Store.{IsDeep, Marked, MarkedOthers, Marks, has, of_match};

use crate::live::Live;
use defs_match::Instance;
use match_changes::MatchKey;
use open_instances::copy_of;
use soar_sym::NoMemory;
use std::alloc::Global;
use std::collections::{BTreeMap, BTreeSet};

pub type Numbers = BTreeMap<(u64, u64), ()>;

pub type Matches = BTreeMap<(MatchKey, u64), ()>;

/// The places of firings, by their numbers, by their depths and by the keys of their instances.
#[derive(Drop)]
pub struct Index {
    pub numbers: Numbers,
    pub depths: Numbers,
    pub matches: Matches,
}

impl Index {
    /// No places. It takes no memory.
    pub fn new(alloc: Global) -> Index
        ensures numbers { result.numbers.entries ≡ [] }
        ensures depths { result.depths.entries ≡ [] }
        ensures matches { result.matches.entries ≡ [] }
    {
        Index {
            numbers: BTreeMap::new(alloc),
            depths: BTreeMap::new(alloc),
            matches: BTreeMap::new(alloc),
        }
    }

    /// Puts the place of a firing in everywhere, or nowhere, and gives the firing back.
    pub fn note(&mut self, firing: Live, key: MatchKey, place: u64) -> Result<Live, NoMemory>
        requires { key ≡ key_of firing.instance }
        ensures same { IfOk result (λ noted. noted ≡ firing) }
        ensures ok { OnOk result (Marked firing.number firing.depth (key_of firing.instance) place true self.old self.new) }
        ensures err { OnErr result (Marked firing.number firing.depth (key_of firing.instance) place false self.old self.new) }
    {
        match self.put_all(firing.number, firing.depth, key, place) {
            Ok(()) => Ok(firing),
            Err(_) => {
                let _ = self.forget(firing, place);
                Err(NoMemory)
            }
        }
    }

    /// Puts a place in everywhere. Where memory is wanting it stands under some of them.
    fn put_all(
        &mut self,
        number: u64,
        depth: usize,
        key: MatchKey,
        place: u64,
    ) -> Result<(), NoMemory>
        ensures ok { OnOk result (Marked number depth key place true self.old self.new) }
        ensures err { OnErr result (MarkedOthers number depth key place self.old self.new) }
    {
        put(&mut self.numbers, number, place)?;
        put(&mut self.depths, depth as u64, place)?;
        put_match(&mut self.matches, key, place)
    }

    /// Takes the place of a firing out everywhere. It takes no memory, and gives the firing back.
    pub fn forget(&mut self, firing: Live, place: u64) -> Live
        ensures same { result ≡ firing }
        ensures marks { Marked firing.number firing.depth (key_of firing.instance) place false self.old self.new }
    {
        let Live {
            number,
            name,
            depth,
            instance,
        } = firing;
        let Instance { rule, tags, binds } = instance;
        take(&mut self.numbers, number, place);
        take(&mut self.depths, depth as u64, place);
        let key = take_match(&mut self.matches, MatchKey { rule, tags }, place);
        Live {
            number,
            name,
            depth,
            instance: Instance {
                rule: key.rule,
                tags: key.tags,
                binds,
            },
        }
    }
}

fn put(numbers: &mut Numbers, number: u64, place: u64) -> Result<(), NoMemory>
    ensures ok { OnOk result (Marks nat_cmp (number, place) true numbers.old.entries numbers.new.entries) }
    ensures err { OnErr result (numbers.new.entries ≡ numbers.old.entries) }
{
    numbers.insert((number, place), ())?;
    Ok(())
}

fn take(numbers: &mut Numbers, number: u64, place: u64)
    ensures { Marks nat_cmp (number, place) false numbers.old.entries numbers.new.entries }
{
    numbers.remove(&(number, place));
}

fn put_match(matches: &mut Matches, key: MatchKey, place: u64) -> Result<(), NoMemory>
    ensures ok { OnOk result (Marks key_cmp (key, place) true matches.old.entries matches.new.entries) }
    ensures err { OnErr result (matches.new.entries ≡ matches.old.entries) }
{
    matches.insert((key, place), ())?;
    Ok(())
}

/// Takes a place out, and gives its key back.
fn take_match(matches: &mut Matches, key: MatchKey, place: u64) -> MatchKey
    ensures same { result ≡ key }
    ensures marks { Marks key_cmp (key, place) false matches.old.entries matches.new.entries }
{
    let stand = (key, place);
    matches.remove(&stand);
    stand.0
}

/// The first place of a number.
pub fn first(numbers: &Numbers, number: u64) -> Option<u64>
    ensures some { IfSome result (λ n. has nat_cmp numbers.now.entries (number, n) ≡ true) }
    ensures none { IfNone result ((n : ℕ) → n < 2 ^ 64 → has nat_cmp numbers.now.entries (number, n) ≡ false) }
{
    match numbers.range((number, 0)..=(number, u64::MAX)).next() {
        Some((stand, _)) => Some(stand.1),
        None => None,
    }
}

/// A place at a depth, or below it.
pub fn first_deep(depths: &Numbers, depth: usize) -> Option<u64>
    ensures some { IfSome result (IsDeep depth depths.now.entries) }
    ensures none { IfNone result ((d n : ℕ) → depth ≤ d → has nat_cmp depths.now.entries (d, n) ≡ false) }
{
    match depths.range((depth as u64, 0)..).next() {
        Some((stand, _)) => Some(stand.1),
        None => None,
    }
}

/// The places of a key more.
pub fn add_places(
    alloc: Global,
    matches: &Matches,
    key: &MatchKey,
    places: &mut BTreeSet<u64>,
) -> Result<(), NoMemory>
    ensures { OnOk result ((p : ℕ) → list_any (λ n. n == p) places.new.keys ≡ (list_any (λ n. n == p) places.old.keys || list_any (λ e. e.0.1 == p) (of_match key.now matches.now.entries))) }
{
    let low = copy_of(alloc, key)?;
    let high = copy_of(alloc, key)?;
    'places: for (stand, _) in matches.range((low, 0)..=(high, u64::MAX)) {
        add_place(places, stand.1)?;
    }
    Ok(())
}

fn add_place(places: &mut BTreeSet<u64>, place: u64) -> Result<(), NoMemory>
    ensures { OnOk result ((p : ℕ) → list_any (λ n. n == p) places.new.keys ≡ ((place == p) || list_any (λ n. n == p) places.old.keys)) }
{
    places.insert(place)?;
    Ok(())
}
