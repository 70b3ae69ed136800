// Symbols with their levels.
ghost use Rattle.std.specs.Prelude.{◌≡◌, Some, None, OnOk, cond};
ghost use Rattle.std.specs.Ordering.{is_eq};
ghost use Rattle.soar_sym.specs.Equality.{symbol_eq};
ghost use Rattle.soar_sym.specs.declared.symbol.Sym.{Sym as SymOf};
ghost use Rattle.level_change.specs.Links.{Levels as LevelsOf, Place as PlaceOf, level_at, place_cmp, placed, value_in};

use crate::levels::{LateLevels, Levels};
use crate::place::{Id, id_of};
use soar_sym::{NoMemory, Sym};

/// The level of a symbol.
pub fn level_of(levels: &Levels, told: &LateLevels, id: Sym) -> Option<u32>
    ensures { result ≡ level_at levels.now.entries told.now.entries id }
{
    match id_of(id) {
        Some(id) => level_in(levels, told, id),
        None => None,
    }
}

/// The level of an identifier.
fn level_in(levels: &Levels, told: &LateLevels, id: Id) -> Option<u32>
    ensures { result ≡ value_in (placed levels.now.entries) (placed told.now.entries) (id, (0, 0)) }
{
    match told.get(&id) {
        Some(level) => *level,
        None => levels.get(&id).copied(),
    }
}

/// Tells the level of an identifier. Another symbol counts as want of memory.
pub fn tell(told: &mut LateLevels, id: Sym, level: u32) -> Result<(), NoMemory>
    ensures { OnOk result ((levels : LevelsOf) (s : SymOf) → level_at levels told.new.entries s ≡ cond (symbol_eq id s) (Some level) (level_at levels told.old.entries s)) }
{
    let id = id_of(id).ok_or(NoMemory)?;
    write(told, id, Some(level))
}

/// Takes the level of an identifier away. Another symbol counts as want of memory.
pub fn clear(told: &mut LateLevels, id: Sym) -> Result<(), NoMemory>
    ensures { OnOk result ((levels : LevelsOf) (s : SymOf) → level_at levels told.new.entries s ≡ cond (symbol_eq id s) None (level_at levels told.old.entries s)) }
{
    let id = id_of(id).ok_or(NoMemory)?;
    write(told, id, None)
}

/// Writes the level of an identifier, or none.
fn write(told: &mut LateLevels, id: Id, level: Option<u32>) -> Result<(), NoMemory>
    ensures { OnOk result ((levels : LevelsOf) (q : PlaceOf) → value_in (placed levels) (placed told.new.entries) q ≡ cond (is_eq (place_cmp (id, (0, 0)) q)) level (value_in (placed levels) (placed told.old.entries) q)) }
{
    told.insert(id, level)?;
    Ok(())
}
