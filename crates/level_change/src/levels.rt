// Levels by identifiers, and what came later.
ghost use Rattle.std.specs.Prelude.{◌≡◌, [], cond, OnOk, OnErr};
ghost use Rattle.std.specs.Map.{lookup};
ghost use Rattle.level_change.specs.Links.{Id as IdOf, Place as PlaceOf, id_eq, placed, value_in};

use crate::place::Id;
use soar_sym::NoMemory;
use std::alloc::Global;
use std::collections::HashMap;

/// The levels that are kept.
pub type Levels = HashMap<Id, u32>;

/// The levels that came later, or went.
pub type LateLevels = HashMap<Id, Option<u32>>;

/// The levels that are kept, and what the last change did, which is put in before the next one.
#[derive(Drop)]
pub struct Told {
    pub base: Levels,
    pub late: LateLevels,
}

/// No levels.
pub fn no_levels(alloc: Global) -> Told
    ensures base { result.base.entries ≡ [] }
    ensures late { result.late.entries ≡ [] }
{
    Told {
        base: HashMap::new(alloc),
        late: HashMap::new(alloc),
    }
}

/// Puts in what came later. Where memory is refused a part is put in, and each level is the same.
pub fn settle_levels(alloc: Global, told: &mut Told) -> Result<(), NoMemory>
    ensures same { (q : PlaceOf) → value_in (placed told.new.base.entries) (placed told.new.late.entries) q ≡ value_in (placed told.old.base.entries) (placed told.old.late.entries) q }
    ensures ok { OnOk result (told.new.late.entries ≡ []) }
{
    put_levels(&mut told.base, &told.late)?;
    told.late = HashMap::new(alloc);
    Ok(())
}

/// Puts in what came later.
fn put_levels(base: &mut Levels, late: &LateLevels) -> Result<(), NoMemory>
    ensures ok { OnOk result ((q : PlaceOf) → value_in (placed base.new.entries) [] q ≡ value_in (placed base.old.entries) (placed late.now.entries) q) }
    ensures err { OnErr result ((q : PlaceOf) → value_in (placed base.new.entries) (placed late.now.entries) q ≡ value_in (placed base.old.entries) (placed late.now.entries) q) }
{
    'late: for (id, level) in late.iter() {
        put_level(base, *id, *level)?;
    }
    Ok(())
}

/// Puts in the level of an identifier, or takes it out.
fn put_level(base: &mut Levels, id: Id, level: Option<u32>) -> Result<(), NoMemory>
    ensures ok { OnOk result ((q : IdOf) → lookup (id_eq q) base.new.entries ≡ cond (id_eq id q) level (lookup (id_eq q) base.old.entries)) }
    ensures err { OnErr result (base.new.entries ≡ base.old.entries) }
{
    match level {
        Some(level) => {
            base.insert(id, level)?;
        }
        None => {
            base.remove(&id);
        }
    }
    Ok(())
}
