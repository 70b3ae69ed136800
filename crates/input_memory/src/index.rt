// The numbers of triples, by what triples are found.
ghost use Rattle.std.specs.Prelude.{◌≡◌, ℕ, true, false, None, OnOk, OnErr, IfOk, IfSome, IfNone};
ghost use Rattle.soar_sym.specs.declared.symbol.Triple.{Triple as TripleOf};
ghost use Rattle.input_memory.specs.Key.{is_of};
ghost use Rattle.input_memory.specs.Place.{place_of, IsTold, IsToldSymbol};
ghost use Rattle.input_memory.specs.Store.{has, last_over, part_of, triple_at, IsFound, Writes};
ghost use Rattle.input_memory.specs.declared.place.Place.{Place as PlaceOf};

use crate::key::{Key, is_under, lowest};
use crate::place::{Place, edge, place_of, triple_of};
use soar_sym::{NoMemory, Sym, Triple};
use std::alloc::Global;
use std::collections::BTreeMap;

/// The places of triples with their numbers, in one order: a triple is found by its identifier and as a whole.
#[derive(Drop)]
pub struct Index {
    pub places: BTreeMap<(Place, u64), ()>,
}

/// No numbers. It takes no memory.
pub fn empty(alloc: Global) -> Index
    ensures { (q : PlaceOf × ℕ) → has result q ≡ false }
{
    Index {
        places: BTreeMap::new(alloc),
    }
}

/// The number of the first triple of a key. It goes down the map once.
pub fn first(index: &Index, key: Key) -> Option<u64>
    ensures some { IfSome result (λ n. IsFound key index.now n) }
    ensures none { IfNone result ((t : TripleOf) (n : ℕ) → is_of key t ≡ true → has index.now (place_of t, n) ≡ false) }
{
    match index.places.range((lowest(key), 0)..).next() {
        Some((place, _)) => {
            if is_under(key, place.0) {
                Some(place.1)
            } else {
                None
            }
        }
        None => None,
    }
}

/// Puts the number of a triple at its place.
pub fn note(index: &mut Index, triple: Triple, number: u64) -> Result<(), NoMemory>
    ensures ok { OnOk result (Writes triple number true index.old index.new) }
    ensures err { OnErr result (index.new.places.entries ≡ index.old.places.entries) }
    ensures told { IsTold triple }
{
    index.places.insert((place_of(triple), number), ())?;
    Ok(())
}

/// Takes the number of a triple from its place.
pub fn forget(index: &mut Index, triple: Triple, number: u64)
    ensures { Writes triple number false index.old index.new }
{
    index.places.remove(&(place_of(triple), number));
}

/// The triples of an identifier, each by its number.
pub fn gather(alloc: Global, index: &Index, id: Sym) -> Result<BTreeMap<u64, Triple>, NoMemory>
    ensures found { IfOk result (λ found. (n : ℕ) → triple_at found.entries n ≡ last_over n None (part_of id index.now.places.entries)) }
    ensures told { IsToldSymbol id }
{
    let mut found = BTreeMap::new(alloc);
    'places: for (place, _) in index.places.range((edge(id, 0), 0)..(edge(id, 4), 0)) {
        found.insert(place.1, triple_of(place.0))?;
    }
    Ok(found)
}
