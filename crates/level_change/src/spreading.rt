// Levels spread until none can fall any more.
ghost use Rattle.std.specs.Prelude.{◌≡◌, [], OnOk};
ghost use Rattle.soar_sym.specs.declared.symbol.Sym.{Sym as SymOf};
ghost use Rattle.level_laws.specs.Labels.{Links as LinksOf, Labels};
ghost use Rattle.level_graph.specs.Spreading.{Spreads};
ghost use Rattle.level_change.specs.Forgetting.{and_had};
ghost use Rattle.level_change.specs.Links.{level_at, is_linked};
ghost use Rattle.level_change.specs.Passing.{SpreadsBut, KeptBut, and_edges};

use crate::forgetting::Had;
use crate::levels::{LateLevels, Levels};
use crate::links::{ends_of, has_link};
use crate::passing::{pass_from, pass_on, pass_to};
use crate::store::Store;
use crate::told::level_of;
use soar_sym::{List, NoMemory, Sym, Triple};
use std::alloc::Global;

/// Passes the levels of what waits on along the links, until nothing waits.
pub fn spread(
    alloc: Global,
    levels: &Levels,
    told: &mut LateLevels,
    links: &Store,
    goals: &[Sym],
    waiting: &mut List<Sym>,
    moved: &mut List<Sym>,
) -> Result<(), NoMemory>
    ensures spreads { OnOk result (Spreads (is_linked links.now) goals.now (level_at levels.now.entries told.old.entries) waiting.old → Spreads (is_linked links.now) goals.now (level_at levels.now.entries told.new.entries) []) }
    ensures moved { OnOk result ((old : Labels) → KeptBut old (level_at levels.now.entries told.old.entries) moved.old → KeptBut old (level_at levels.now.entries told.new.entries) moved.new) }
{
    'waiting: while let Some(id) = waiting.pop() {
        if let Some(level) = level_of(levels, told, id) {
            let values = ends_of(alloc, links, id)?;
            pass_on(
                levels,
                told,
                values.as_slice(),
                goals,
                level,
                waiting,
                moved,
            )?;
        }
    }
    Ok(())
}

/// Passes levels on along the links that came, as far as they are there.
pub fn pass_come(
    levels: &Levels,
    told: &mut LateLevels,
    links: &Store,
    goals: &[Sym],
    come: &[Triple],
    waiting: &mut List<Sym>,
    moved: &mut List<Sym>,
) -> Result<(), NoMemory>
    ensures settles { OnOk result ((left : LinksOf) → SpreadsBut (is_linked links.now) goals.now (level_at levels.now.entries told.old.entries) waiting.old (and_edges come.now left)
        → SpreadsBut (is_linked links.now) goals.now (level_at levels.now.entries told.new.entries) waiting.new left) }
    ensures moved { OnOk result ((old : Labels) → KeptBut old (level_at levels.now.entries told.old.entries) moved.old → KeptBut old (level_at levels.now.entries told.new.entries) moved.new) }
{
    'come: for triple in come {
        if has_link(links, triple.id, triple.value) {
            pass_to(levels, told, goals, triple.id, triple.value, waiting, moved)?;
        }
    }
    Ok(())
}

/// Passes levels on to what was forgotten, along the links that lead there.
pub fn pass_had(
    alloc: Global,
    levels: &Levels,
    told: &mut LateLevels,
    into: &Store,
    goals: &[Sym],
    had: &[Had],
    waiting: &mut List<Sym>,
    moved: &mut List<Sym>,
) -> Result<(), NoMemory>
    ensures settles { OnOk result ((links left : LinksOf) → ((x y : SymOf) → links x y ≡ is_linked into.now y x)
        → SpreadsBut links goals.now (level_at levels.now.entries told.old.entries) waiting.old (and_had had.now left) → SpreadsBut links goals.now (level_at levels.now.entries told.new.entries) waiting.new left) }
    ensures moved { OnOk result ((old : Labels) → KeptBut old (level_at levels.now.entries told.old.entries) moved.old → KeptBut old (level_at levels.now.entries told.new.entries) moved.new) }
{
    'had: for it in had {
        let sources = ends_of(alloc, into, it.id)?;
        pass_from(
            levels,
            told,
            goals,
            sources.as_slice(),
            it.id,
            waiting,
            moved,
        )?;
    }
    Ok(())
}
