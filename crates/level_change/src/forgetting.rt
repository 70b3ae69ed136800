// Levels are forgotten along the links, as far as they came from what is forgotten.
ghost use Rattle.std.specs.Prelude.{◌≡◌, ◌*◌, ◌+◌, ◌≤◌, [], true, Some, OnOk, IfOk, length};
ghost use Rattle.soar_sym.specs.declared.symbol.Sym.{Sym as SymOf};
ghost use Rattle.defs_soar.specs.Sorted.{has_symbol};
ghost use Rattle.level_laws.specs.Labels.{Labels as LabelsOf, Links as LinksOf};
ghost use Rattle.level_change.specs.Forgetting.{Forgetting, Cleared, has_had, has_level};
ghost use Rattle.level_change.specs.declared.store.Store.{Store as StoreOf};
ghost use Rattle.level_change.specs.Links.{level_at, is_linked};
ghost use Rattle.level_change.specs.Passing.{AreLinked, totals, one_if_told};

use crate::levels::{LateLevels, Levels};
use crate::links::ends_of;
use crate::passing::has_symbol;
use crate::store::Store;
use crate::told::{clear, level_of};
use soar_sym::{List, NoMemory, Sym};
use std::alloc::Global;

/// A symbol and the level that it had.
#[derive(Clone, Copy)]
pub struct Had {
    pub id: Sym,
    pub level: u32,
}

/// Takes their levels away from these symbols, and answers which of them had one.
pub fn clear_seeds(
    alloc: Global,
    levels: &Levels,
    told: &mut LateLevels,
    seeds: &[Sym],
) -> Result<List<Had>, NoMemory>
    ensures { IfOk result (λ had. Cleared (level_at levels.now.entries told.old.entries) (level_at levels.now.entries told.new.entries) had seeds.now) }
{
    let mut had = List::new(alloc);
    'seeds: for id in seeds {
        if let Some(level) = level_of(levels, told, *id) {
            had.push(Had { id: *id, level })?;
            clear(told, *id)?;
        }
    }
    Ok(had)
}

/// Forgets what had its level by what waits, which is forgotten already. All that is forgotten is added to the list.
pub fn forget(
    alloc: Global,
    levels: &Levels,
    told: &mut LateLevels,
    links: &Store,
    goals: &[Sym],
    waiting: &mut List<Had>,
    had: &mut List<Had>,
) -> Result<(), NoMemory>
    ensures kept { OnOk result ((s : SymOf) → has_had had.old s ≡ true → has_had had.new s ≡ true) }
    ensures forgets { OnOk result ((first : LabelsOf) (x : SymOf)
        → Forgetting (is_linked links.now) goals.now first (level_at levels.now.entries told.old.entries) had.old waiting.old x []
        → Forgetting (is_linked links.now) goals.now first (level_at levels.now.entries told.new.entries) had.new [] x []) }
{
    'waiting: while let Some(last) = waiting.pop() {
        let values = ends_of(alloc, links, last.id)?;
        forget_from(
            levels,
            told,
            values.as_slice(),
            goals,
            last.level,
            waiting,
            had,
        )?;
    }
    Ok(())
}

/// Forgets those of these symbols that have a level, goals apart, and lets them wait.
fn forget_from(
    levels: &Levels,
    told: &mut LateLevels,
    values: &[Sym],
    goals: &[Sym],
    level: u32,
    waiting: &mut List<Had>,
    had: &mut List<Had>,
) -> Result<(), NoMemory>
    ensures kept { OnOk result ((s : SymOf) → has_had had.old s ≡ true → has_had had.new s ≡ true) }
    ensures forgets { OnOk result ((links : LinksOf) (first : LabelsOf) (x : SymOf) → first x ≡ Some level
        → Forgetting links goals.now first (level_at levels.now.entries told.old.entries) had.old waiting.old x values.now
        → Forgetting links goals.now first (level_at levels.now.entries told.new.entries) had.new waiting.new x []) }
    ensures less { OnOk result ((links : StoreOf) (x : SymOf) → AreLinked links x values.now
        → 2 * totals one_if_told (level_at levels.now.entries told.new.entries) links + length waiting.new ≤ 2 * totals one_if_told (level_at levels.now.entries told.old.entries) links + length waiting.old) }
{
    'values: for value in values {
        if has_level(level_of(levels, told, *value), level) && !has_symbol(goals, *value) {
            let it = Had { id: *value, level };
            waiting.push(it)?;
            had.push(it)?;
            clear(told, *value)?;
        }
    }
    Ok(())
}

/// Whether this is the level.
pub fn has_level(mark: Option<u32>, level: u32) -> bool
    ensures { result ≡ has_level mark level }
{
    match mark {
        Some(other) => other == level,
        None => false,
    }
}
