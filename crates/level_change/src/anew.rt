// Levels are forgotten, and told anew.
ghost use Rattle.std.specs.Prelude.{◌≡◌, ℕ, [], true, false, Some, IfOk, map, List as ListOf};
ghost use Rattle.soar_sym.specs.declared.symbol.Sym.{Sym as SymOf};
ghost use Rattle.defs_soar.specs.Sorted.{has_symbol};
ghost use Rattle.level_laws.specs.Labels.{Labels};
ghost use Rattle.level_graph.specs.Spreading.{Spreads};
ghost use Rattle.level_change.specs.Anew.{CanSpread};
ghost use Rattle.level_change.specs.Forgetting.{Forgetting, has_had, and_had};
ghost use Rattle.level_change.specs.Links.{level_at, is_linked};
ghost use Rattle.level_change.specs.Passing.{KeptBut, and_edges, no_links};
ghost use Rattle.level_change.specs.Seeds.{seeds_in};

use crate::forgetting::{Had, clear_seeds, forget};
use crate::goals::tell_goals;
use crate::levels::{LateLevels, Levels};
use crate::seeds::seeds_of;
use crate::spreading::{pass_come, pass_had, spread};
use crate::store::Store;
use soar_sym::{List, NoMemory, Sym, Triple};
use std::alloc::Global;

/// Forgets the levels that may have come by a link that is gone, or by a goal that comes, goes or moves. The links are those after the change.
pub fn forget_lost(
    alloc: Global,
    levels: &Levels,
    told: &mut LateLevels,
    links: &Store,
    old: &[Sym],
    gone: &[Triple],
    new: &[Sym],
) -> Result<List<Had>, NoMemory>
    ensures forgets { IfOk result (λ had. (x : SymOf) → Forgetting (is_linked links.now) old.now (level_at levels.now.entries told.old.entries) (level_at levels.now.entries told.new.entries) had [] x []) }
    ensures seeds { IfOk result (λ had. (s : SymOf) (n : ℕ) → has_symbol (seeds_in (level_at levels.now.entries told.old.entries) links.now old.now gone.now new.now) s ≡ true → level_at levels.now.entries told.old.entries s ≡ Some n → has_had had s ≡ true) }
{
    let seeds = seeds_of(alloc, levels, told, links, old, gone, new)?;
    let mut had = clear_seeds(alloc, levels, told, seeds.as_slice())?;
    let mut waiting = List::from_slice(alloc, had.as_slice())?;
    forget(alloc, levels, told, links, old, &mut waiting, &mut had)?;
    Ok(had)
}

/// Tells levels anew from the goals, along the links that came, and to what was forgotten. Answers what may have another level.
pub fn spread_anew(
    alloc: Global,
    levels: &Levels,
    told: &mut LateLevels,
    out: &Store,
    into: &Store,
    goals: &[Sym],
    come: &[Triple],
    had: &[Had],
) -> Result<List<Sym>, NoMemory>
    ensures spreads { IfOk result (λ moved. CanSpread (is_linked out.now) goals.now (level_at levels.now.entries told.old.entries) (and_edges come.now (and_had had.now no_links))
        → ((x y : SymOf) → is_linked out.now x y ≡ is_linked into.now y x) → Spreads (is_linked out.now) goals.now (level_at levels.now.entries told.new.entries) []) }
    ensures moved { IfOk result (λ moved. (first : Labels) → ((s : SymOf) → has_had had.now s ≡ false → level_at levels.now.entries told.old.entries s ≡ first s) → KeptBut first (level_at levels.now.entries told.new.entries) moved) }
{
    let mut moved = symbols_of(alloc, had)?;
    let mut waiting = List::new(alloc);
    tell_goals(levels, told, goals, &mut waiting, &mut moved)?;
    pass_come(levels, told, out, goals, come, &mut waiting, &mut moved)?;
    pass_had(
        alloc,
        levels,
        told,
        into,
        goals,
        had,
        &mut waiting,
        &mut moved,
    )?;
    spread(alloc, levels, told, out, goals, &mut waiting, &mut moved)?;
    Ok(moved)
}

/// The symbols that had a level.
fn symbols_of(alloc: Global, had: &[Had]) -> Result<List<Sym>, NoMemory>
    ensures { IfOk result (λ symbols. symbols ≡ map (λ h. h.id) had.now) }
{
    let mut symbols = List::new(alloc);
    'had: for it in had {
        symbols.push(it.id)?;
    }
    Ok(symbols)
}
