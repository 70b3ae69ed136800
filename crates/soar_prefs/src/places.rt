// Keys of one kind, each with numbers.
ghost use Rattle.std.specs.Prelude.{◌≡◌, ℕ, true, false, OnOk, OnErr, IfSome, IfNone};
ghost use Rattle.soar_prefs.specs.Places.{is_of_key, stands, Writes};

use soar_sym::NoMemory;
use std::collections::BTreeMap;

/// The first number of a key. It goes down the map once.
pub fn first<K: Ord + Copy>(places: &BTreeMap<(K, u64), ()>, key: K) -> Option<u64>
    ensures some { IfSome result (λ n. stands K.cmp places.now.entries (key, n) ≡ true) }
    ensures none { IfNone result ((n : ℕ) → stands K.cmp places.now.entries (key, n) ≡ false) }
{
    match places.range((key, 0)..).next() {
        Some((place, _)) => {
            if place.0.cmp(&key).is_eq() {
                Some(place.1)
            } else {
                None
            }
        }
        None => None,
    }
}

/// Whether a place is of a key.
#[tactic(auto, using(crate::proofs::RunLemmas::tied_of_key))]
pub fn is_of<K: Ord + Copy>(place: &(K, u64), key: K) -> bool
    ensures { result ≡ is_of_key K.cmp key place.now }
{
    let _number = place.1;
    place.0.cmp(&key).is_eq()
}

/// Puts a number under a key.
pub fn put<K: Ord + Copy>(
    places: &mut BTreeMap<(K, u64), ()>,
    key: K,
    number: u64,
) -> Result<(), NoMemory>
    ensures ok { OnOk result (Writes K.cmp (key, number) true places.old.entries places.new.entries) }
    ensures err { OnErr result (places.new.entries ≡ places.old.entries) }
{
    places.insert((key, number), ())?;
    Ok(())
}

/// Takes a number from a key.
pub fn take<K: Ord + Copy>(places: &mut BTreeMap<(K, u64), ()>, key: K, number: u64)
    ensures { Writes K.cmp (key, number) false places.old.entries places.new.entries }
{
    places.remove(&(key, number));
}
