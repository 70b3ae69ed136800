// What is kept at places, and what came later.
ghost use Rattle.std.specs.Prelude.{◌≡◌, [], cond, OnOk, OnErr};
ghost use Rattle.std.specs.Map.{lookup};
ghost use Rattle.std.specs.Ordering.{is_eq};
ghost use Rattle.level_change.specs.Links.{Facts as FactsOf, Place as PlaceOf, place_cmp, value_in, value_if};

use crate::place::Place;
use soar_sym::NoMemory;
use std::alloc::Global;
use std::collections::BTreeMap;

/// What is kept.
pub type Facts = BTreeMap<Place, u32>;

/// What came later, or went.
pub type Late = BTreeMap<Place, Option<u32>>;

/// What is kept, and what the last change did, which is put in before the next one.
#[derive(Drop)]
pub struct Store {
    pub base: Facts,
    pub late: Late,
}

/// Nothing.
pub fn empty(alloc: Global) -> Store
    ensures base { result.base.entries ≡ [] }
    ensures late { result.late.entries ≡ [] }
{
    Store {
        base: BTreeMap::new(alloc),
        late: BTreeMap::new(alloc),
    }
}

/// What stands at a place.
pub fn read(base: &Facts, late: &Late, place: Place) -> Option<u32>
    ensures { result ≡ value_in base.now.entries late.now.entries place }
{
    match late.get(&place) {
        Some(value) => *value,
        None => base.get(&place).copied(),
    }
}

/// What stands at a place, where there is such a place.
pub fn read_if(base: &Facts, late: &Late, place: Option<Place>) -> Option<u32>
    ensures { result ≡ value_if base.now.entries late.now.entries place }
{
    match place {
        Some(place) => read(base, late, place),
        None => None,
    }
}

/// Puts something at a place, or nothing.
pub fn write(late: &mut Late, place: Place, value: Option<u32>) -> Result<(), NoMemory>
    ensures { OnOk result ((base : FactsOf) (q : PlaceOf) → value_in base late.new.entries q ≡ cond (is_eq (place_cmp place q)) value (value_in base late.old.entries q)) }
{
    late.insert(place, value)?;
    Ok(())
}

/// Puts in what came later. Where memory is refused a part is put in, and what stands at each place is the same.
pub fn settle(alloc: Global, store: &mut Store) -> Result<(), NoMemory>
    ensures same { (q : PlaceOf) → value_in store.new.base.entries store.new.late.entries q ≡ value_in store.old.base.entries store.old.late.entries q }
    ensures ok { OnOk result (store.new.late.entries ≡ []) }
{
    put_in(&mut store.base, &store.late)?;
    store.late = BTreeMap::new(alloc);
    Ok(())
}

/// Puts in what came later.
fn put_in(base: &mut Facts, late: &Late) -> Result<(), NoMemory>
    ensures ok { OnOk result ((q : PlaceOf) → value_in base.new.entries [] q ≡ value_in base.old.entries late.now.entries q) }
    ensures err { OnErr result ((q : PlaceOf) → value_in base.new.entries late.now.entries q ≡ value_in base.old.entries late.now.entries q) }
{
    'late: for (place, value) in late.iter() {
        put(base, *place, *value)?;
    }
    Ok(())
}

/// Puts something at a place, or nothing.
fn put(base: &mut Facts, place: Place, value: Option<u32>) -> Result<(), NoMemory>
    ensures ok { OnOk result ((q : PlaceOf) → lookup (λ k. is_eq (place_cmp q k)) base.new.entries ≡ cond (is_eq (place_cmp place q)) value (lookup (λ k. is_eq (place_cmp q k)) base.old.entries)) }
    ensures err { OnErr result (base.new.entries ≡ base.old.entries) }
{
    match value {
        Some(value) => {
            base.insert(place, value)?;
        }
        None => {
            base.remove(&place);
        }
    }
    Ok(())
}
