// What is forgotten first: old levels decide, so none is cleared here.
ghost use Rattle.std.specs.Prelude.{◌≡◌, ◌++◌, IfOk, OnOk, map, filter};
ghost use Rattle.level_change.specs.Links.{level_at};
ghost use Rattle.level_change.specs.Seeds.{is_cut, place_of, same_place, has_other_place, seeds_in};

use crate::forgetting::has_level;
use crate::levels::{LateLevels, Levels};
use crate::links::has_link;
use crate::passing::has_symbol;
use crate::store::Store;
use crate::told::level_of;
use soar_sym::{List, NoMemory, Sym, Triple, is_symbol};
use std::alloc::Global;

/// What lost the link that gave its level, and the goals that come, go or move.
pub fn seeds_of(
    alloc: Global,
    levels: &Levels,
    told: &LateLevels,
    links: &Store,
    old: &[Sym],
    gone: &[Triple],
    new: &[Sym],
) -> Result<List<Sym>, NoMemory>
    ensures { IfOk result (λ seeds. seeds ≡ seeds_in (level_at levels.now.entries told.now.entries) links.now old.now gone.now new.now) }
{
    let mut seeds = cut_off(alloc, levels, told, links, old, gone)?;
    add_moved(old, new, old, &mut seeds)?;
    add_moved(old, new, new, &mut seeds)?;
    Ok(seeds)
}

/// The values that lost the link that gave their level.
fn cut_off(
    alloc: Global,
    levels: &Levels,
    told: &LateLevels,
    links: &Store,
    goals: &[Sym],
    gone: &[Triple],
) -> Result<List<Sym>, NoMemory>
    ensures { IfOk result (λ seeds. seeds ≡ map (λ t. t.value) (filter (is_cut (level_at levels.now.entries told.now.entries) links.now goals.now) gone.now)) }
{
    let mut seeds = List::new(alloc);
    'gone: for triple in gone {
        if is_cut(levels, told, links, goals, *triple) {
            seeds.push(triple.value)?;
        }
    }
    Ok(seeds)
}

/// Adds those of these goals that come, go or move.
fn add_moved(old: &[Sym], new: &[Sym], goals: &[Sym], seeds: &mut List<Sym>) -> Result<(), NoMemory>
    ensures { OnOk result (seeds.new ≡ seeds.old ++ filter (has_other_place old.now new.now) goals.now) }
{
    'goals: for goal in goals {
        if !is_same_place(place_of(old, *goal), place_of(new, *goal)) {
            seeds.push(*goal)?;
        }
    }
    Ok(())
}

/// Whether the link of a triple is gone, and its value, which is no goal, has the level of its source.
fn is_cut(levels: &Levels, told: &LateLevels, links: &Store, goals: &[Sym], triple: Triple) -> bool
    ensures { result ≡ is_cut (level_at levels.now.entries told.now.entries) links.now goals.now triple }
{
    if has_link(links, triple.id, triple.value) || has_symbol(goals, triple.value) {
        return false;
    }
    match level_of(levels, told, triple.id) {
        Some(level) => has_level(level_of(levels, told, triple.value), level),
        None => false,
    }
}

/// The place of a goal, from 0.
fn place_of(goals: &[Sym], id: Sym) -> Option<usize>
    ensures { result ≡ place_of goals.now id }
{
    'goals: for (at, goal) in goals.iter().enumerate() {
        if is_symbol(id, *goal) {
            return Some(at);
        }
    }
    None
}

/// Whether two places are the same.
fn is_same_place(a: Option<usize>, b: Option<usize>) -> bool
    ensures { result ≡ same_place a b }
{
    match (a, b) {
        (None, None) => true,
        (Some(m), Some(n)) => m == n,
        _ => false,
    }
}
