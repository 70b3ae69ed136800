// The results of a firing, and which of its preferences go over to what is learned.
ghost use Rattle.std.specs.Prelude.{◌≡◌, ◌++◌, map, IfOk, OnOk};
ghost use Rattle.chunk_results.specs.Reached.{AreRowsKnown, AreWishesKnown, TellsReach};
ghost use Rattle.chunk_results.specs.Told.{goes_as_told, rows_as_told};
ghost use Rattle.defs_soar.specs.History.{Reach, firing_seen};
ghost use Rattle.defs_soar.specs.Results.{goes_over, result_row, results_of, rows_seen};

use crate::before::Before;
use crate::closure::{closure_of, is_accepted};
use crate::hanging::held_by_results;
use defs_soar::{Firing, Goal, Leveled, Preference, Wish};
use soar_sym::{List, NoMemory, SymTable};
use std::alloc::Global;
use symbol_sets::SymbolSet;

/// The results of a firing as rows: its preferences for identifiers of a higher level than its match goal, as it made
/// them, and then, in order of triple, all acceptable rows of the local identifiers that these lead to, each triple with
/// its least-numbered maker (Soar manual, chapter 4, results). `rows` is preference memory before the wave, `levels`
/// and `goals` are those before it.
pub fn results<L: Leveled>(
    alloc: Global,
    firing: &Firing,
    rows: &List<Preference>,
    levels: &L,
    goals: &List<Goal>,
    table: &SymTable,
) -> Result<List<Preference>, NoMemory>
    requires rows { AreRowsKnown table.now rows.now }
    requires made { AreWishesKnown table.now firing.now.made }
    ensures { (before : Reach) → before.goals ≡ goals.now → TellsReach (L.told levels.now) before
        → IfOk result (λ found. found ≡ results_of table.now before rows.now (firing_seen firing.now)) }
{
    let before = Before {
        levels,
        goals: goals.as_slice(),
        firing,
    };
    let seen = rows_seen(alloc, rows.as_slice(), firing)?;
    let held = held_by_results(alloc, &before, seen.as_slice())?;
    let mut found = own_rows(alloc, &before)?;
    let closure = closure_of(alloc, table, seen.as_slice(), &held)?;
    found.extend_from_slice(closure.as_slice())?;
    Ok(found)
}

/// For each preference that the firing made, whether it goes over to what is learned: a result, or an acceptable
/// preference of a local identifier that results lead to.
pub fn taken_over<L: Leveled>(
    alloc: Global,
    firing: &Firing,
    rows: &List<Preference>,
    levels: &L,
    goals: &List<Goal>,
) -> Result<List<bool>, NoMemory>
    ensures { (before : Reach) → before.goals ≡ goals.now → TellsReach (L.told levels.now) before
        → IfOk result (λ flags. flags ≡ map (goes_over before rows.now (firing_seen firing.now)) firing.now.made) }
{
    let before = Before {
        levels,
        goals: goals.as_slice(),
        firing,
    };
    let seen = rows_seen(alloc, rows.as_slice(), firing)?;
    let held = held_by_results(alloc, &before, seen.as_slice())?;
    flags_of(alloc, &before, &held)
}

/// The rows that may hang on a result: those before the wave, and the firing's own.
fn rows_seen(
    alloc: Global,
    rows: &[Preference],
    firing: &Firing,
) -> Result<List<Preference>, NoMemory>
    ensures { IfOk result (λ seen. seen ≡ rows_seen rows.now (firing_seen firing.now)) }
{
    let mut seen = List::from_slice(alloc, rows)?;
    add_made(&mut seen, firing)?;
    Ok(seen)
}

fn add_made(rows: &mut List<Preference>, firing: &Firing) -> Result<(), NoMemory>
    ensures { OnOk result (rows.new ≡ rows.old ++ map (result_row (firing_seen firing.now)) firing.now.made) }
{
    'made: for wish in firing.made.as_slice() {
        rows.push(row_of(firing, wish))?;
    }
    Ok(())
}

/// The preferences of the firing that are results, as it made them.
fn own_rows<L: Leveled>(alloc: Global, before: &Before<L>) -> Result<List<Preference>, NoMemory>
    ensures { IfOk result (λ own. own ≡ rows_as_told (L.told before.now.levels.now) (firing_seen before.now.firing.now)) }
{
    let mut own = List::new(alloc);
    'made: for wish in before.firing.made.as_slice() {
        if before.is_result(wish) {
            own.push(row_of(before.firing, wish))?;
        }
    }
    Ok(own)
}

fn row_of(firing: &Firing, wish: &Wish) -> Preference
    ensures { result ≡ result_row (firing_seen firing.now) wish.now }
{
    Preference {
        firing: firing.number,
        wish: *wish,
        operator_support: false,
    }
}

fn flags_of<L: Leveled>(
    alloc: Global,
    before: &Before<L>,
    held: &SymbolSet,
) -> Result<List<bool>, NoMemory>
    ensures { IfOk result (λ flags. flags ≡ map (goes_as_told (L.told before.now.levels.now) before.now.firing.now.depth held.now) before.now.firing.now.made) }
{
    let mut flags = List::new(alloc);
    'made: for wish in before.firing.made.as_slice() {
        flags.push(goes_over(before, held, wish))?;
    }
    Ok(flags)
}

fn goes_over<L: Leveled>(before: &Before<L>, held: &SymbolSet, wish: &Wish) -> bool
    ensures { result ≡ goes_as_told (L.told before.now.levels.now) before.now.firing.now.depth held.now wish.now }
{
    before.is_result(wish) || is_accepted(wish, held)
}
