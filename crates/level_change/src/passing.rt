// Levels are passed on, and lower levels alone are taken.
ghost use Rattle.std.specs.Prelude.{◌≡◌, ◌*◌, ◌+◌, ◌≤◌, [], true, OnOk, length};
ghost use Rattle.soar_sym.specs.declared.symbol.Sym.{Sym as SymOf};
ghost use Rattle.defs_soar.specs.Sorted.{has_symbol};
ghost use Rattle.level_laws.specs.Labels.{Links as LinksOf, Labels};
ghost use Rattle.level_graph.specs.Marks.{weight_of};
ghost use Rattle.level_graph.specs.Spreading.{Passed, is_above};
ghost use Rattle.level_change.specs.declared.store.Store.{Store as StoreOf};
ghost use Rattle.level_change.specs.Links.{level_at};
ghost use Rattle.level_change.specs.Passing.{SpreadsBut, KeptBut, AreLinked, totals, and_link, and_links};

use crate::levels::{LateLevels, Levels};
use crate::told::{level_of, tell};
use soar_sym::{List, NoMemory, Sym, is_symbol};

/// Passes a level on to these symbols. Those that are no goals and had a higher level, or none, take it, and wait.
pub fn pass_on(
    levels: &Levels,
    told: &mut LateLevels,
    values: &[Sym],
    goals: &[Sym],
    level: u32,
    waiting: &mut List<Sym>,
    moved: &mut List<Sym>,
) -> Result<(), NoMemory>
    ensures passed { OnOk result (Passed goals.now values.now level (level_at levels.now.entries told.old.entries) waiting.old (level_at levels.now.entries told.new.entries) waiting.new []) }
    ensures moved { OnOk result ((old : Labels) → KeptBut old (level_at levels.now.entries told.old.entries) moved.old → KeptBut old (level_at levels.now.entries told.new.entries) moved.new) }
    ensures less { OnOk result ((links : StoreOf) (x : SymOf) → AreLinked links x values.now
        → 2 * totals weight_of (level_at levels.now.entries told.new.entries) links + length waiting.new ≤ 2 * totals weight_of (level_at levels.now.entries told.old.entries) links + length waiting.old) }
{
    'values: for value in values {
        if falls_to(level_of(levels, told, *value), level) && !has_symbol(goals, *value) {
            waiting.push(*value)?;
            moved.push(*value)?;
            tell(told, *value, level)?;
        }
    }
    Ok(())
}

/// Passes the level of one symbol on to another.
pub fn pass_to(
    levels: &Levels,
    told: &mut LateLevels,
    goals: &[Sym],
    from: Sym,
    to: Sym,
    waiting: &mut List<Sym>,
    moved: &mut List<Sym>,
) -> Result<(), NoMemory>
    ensures settles { OnOk result ((links left : LinksOf) → links from to ≡ true
        → SpreadsBut links goals.now (level_at levels.now.entries told.old.entries) waiting.old (and_link from to left) → SpreadsBut links goals.now (level_at levels.now.entries told.new.entries) waiting.new left) }
    ensures moved { OnOk result ((old : Labels) → KeptBut old (level_at levels.now.entries told.old.entries) moved.old → KeptBut old (level_at levels.now.entries told.new.entries) moved.new) }
{
    match level_of(levels, told, from) {
        Some(level) => pass_on(levels, told, &[to], goals, level, waiting, moved),
        None => Ok(()),
    }
}

/// Passes the levels of these symbols on to another.
pub fn pass_from(
    levels: &Levels,
    told: &mut LateLevels,
    goals: &[Sym],
    sources: &[Sym],
    to: Sym,
    waiting: &mut List<Sym>,
    moved: &mut List<Sym>,
) -> Result<(), NoMemory>
    ensures settles { OnOk result ((links left : LinksOf) → ((x : SymOf) → has_symbol sources.now x ≡ true → links x to ≡ true)
        → SpreadsBut links goals.now (level_at levels.now.entries told.old.entries) waiting.old (and_links sources.now to left) → SpreadsBut links goals.now (level_at levels.now.entries told.new.entries) waiting.new left) }
    ensures moved { OnOk result ((old : Labels) → KeptBut old (level_at levels.now.entries told.old.entries) moved.old → KeptBut old (level_at levels.now.entries told.new.entries) moved.new) }
{
    'sources: for source in sources {
        pass_to(levels, told, goals, *source, to, waiting, moved)?;
    }
    Ok(())
}

/// Whether a level, or none, is above another.
fn falls_to(mark: Option<u32>, level: u32) -> bool
    ensures { result ≡ is_above mark level }
{
    match mark {
        Some(other) => level < other,
        None => true,
    }
}

/// Whether a symbol is among these.
pub fn has_symbol(symbols: &[Sym], symbol: Sym) -> bool
    ensures { result ≡ has_symbol symbols.now symbol }
{
    'symbols: for other in symbols {
        if is_symbol(symbol, *other) {
            return true;
        }
    }
    false
}
