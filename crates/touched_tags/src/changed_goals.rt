// Identifiers that became goals, or are none any more.
ghost use Rattle.std.specs.Prelude.{◌≡◌, ◌≤◌, ◌++◌, length, take, IfOk, IsTrue, OnOk};
ghost use Rattle.defs_soar.specs.Goals.{goal_ids};
ghost use Rattle.defs_soar.specs.Sorted.{has_symbol};
ghost use Rattle.touched_tags.specs.Looked.{CoverChanged, IsSymbolAt, left_by};

use defs_soar::Goal;
use soar_sym::{List, NoMemory, Sym, is_symbol};
use std::alloc::Global;

/// Those of the identifiers before and of the goals' that are not among both. Where both begin alike
/// they are passed over together.
pub fn changed_goals(alloc: Global, before: &[Sym], goals: &[Goal]) -> Result<List<Sym>, NoMemory>
    ensures { IfOk result (λ changed. CoverChanged before.now (goal_ids goals.now) changed) }
{
    let ids = ids_of(alloc, goals)?;
    let alike = count_alike(before, ids.as_slice());
    let (_, old) = before.split_at(alike);
    let (_, new) = ids.as_slice().split_at(alike);
    let mut changed = List::new(alloc);
    add_left(&mut changed, new, old)?;
    add_left(&mut changed, old, new)?;
    Ok(changed)
}

/// The identifiers of goals.
fn ids_of(alloc: Global, goals: &[Goal]) -> Result<List<Sym>, NoMemory>
    ensures { IfOk result (λ ids. ids ≡ goal_ids goals.now) }
{
    let mut ids = List::new(alloc);
    'goals: for goal in goals {
        ids.push(goal.id)?;
    }
    Ok(ids)
}

/// How many stand in front of both alike.
fn count_alike(a: &[Sym], b: &[Sym]) -> usize
    ensures first { result ≤ length a.now }
    ensures second { result ≤ length b.now }
    ensures alike { take result a.now ≡ take result b.now }
{
    'symbols: for (at, symbol) in a.iter().enumerate() {
        if !is_at(b, at, *symbol) {
            return at;
        }
    }
    a.len()
}

/// Adds those of some identifiers that are not among others.
fn add_left(left: &mut List<Sym>, others: &[Sym], ids: &[Sym]) -> Result<(), NoMemory>
    ensures { OnOk result (left.new ≡ left.old ++ left_by others.now ids.now) }
{
    'ids: for id in ids {
        if !has_symbol(others, *id) {
            left.push(*id)?;
        }
    }
    Ok(())
}

fn has_symbol(symbols: &[Sym], symbol: Sym) -> bool
    ensures { result ≡ has_symbol symbols.now symbol }
{
    'symbols: for other in symbols {
        if is_symbol(symbol, *other) {
            return true;
        }
    }
    false
}

/// Whether a symbol stands at a place.
fn is_at(symbols: &[Sym], at: usize, symbol: Sym) -> bool
    ensures { IsTrue result → IsSymbolAt symbols.now at symbol }
{
    match symbols.get(at) {
        Some(other) => is_symbol(symbol, *other),
        None => false,
    }
}
