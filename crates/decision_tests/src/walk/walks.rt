// Rows of goals and preferences, and the walk over them.
ghost use Rattle.std.specs.Prelude.{IfOk, IsTrue, ◌≤◌, length};
ghost use Rattle.soar_choose.specs.Rows.{AreInRange, AreKnown, IsFraction};

use crate::walk::goals::goals_of;
use crate::walk::rows::{are_fit, prefs_of};
use crate::walk::showing::shown;
use decision_walk::walk;
use defs_soar::Mode;
use soar_decide::View;
use soar_goals::Goals;
use soar_prefs::Prefs;
use soar_sym::{NoMemory, SymTable, Text};
use soar_wm::Memory;
use std::alloc::Global;

/// Whether a row of a walk and what it leaves holds.
pub fn walks(alloc: Global, row: &str) -> Result<bool, NoMemory> {
    match row.split_once("=> ") {
        Some((case, wanted)) => Ok(walked(alloc, case)?.as_str() == wanted),
        None => Ok(false),
    }
}

/// What the walk of a case leaves, as a text.
fn walked(alloc: Global, case: &str) -> Result<Text, NoMemory> {
    match case.split_once("| ") {
        Some((goals, rows)) => {
            let goals = goals_of(alloc, goals)?;
            over_rows(alloc, goals, &prefs_of(alloc, rows)?)
        }
        None => Ok(Text::new(alloc)),
    }
}

fn over_rows(alloc: Global, goals: Goals, prefs: &Prefs) -> Result<Text, NoMemory> {
    let table = SymTable::new(alloc)?;
    let memory = Memory::new(alloc, 1_000, 0)?;
    let view = View {
        alloc,
        table: &table,
        prefs,
        memory: &memory,
        mode: Mode::Softmax,
        random: &[0],
    };
    over_view(&view, goals)
}

fn over_view(view: &View<'_>, mut goals: Goals) -> Result<Text, NoMemory>
    requires { IsFraction view.now.mode }
{
    if !is_view_fit(view)? {
        return Ok(Text::new(view.alloc));
    }
    let decided = walk(view, &mut goals)?;
    Ok(shown(view.alloc, goals.list().as_slice(), &decided)?)
}

/// Whether a decision can be made over the rows.
fn is_view_fit(view: &View<'_>) -> Result<bool, NoMemory>
    ensures few { IfOk result (λ fit. IsTrue fit → length view.now.prefs.now.rows ≤ 1000000) }
    ensures known { IfOk result (λ fit. IsTrue fit → AreKnown view.now.table.now view.now.prefs.now.rows) }
    ensures range { IfOk result (λ fit. IsTrue fit → AreInRange view.now.prefs.now.rows) }
{
    let rows = view.prefs.all(view.alloc)?;
    Ok(rows.len() <= 1_000 && are_fit(view.table, rows.as_slice()))
}
