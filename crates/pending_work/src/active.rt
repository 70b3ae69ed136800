// The active level, and the work that is of it.
ghost use Rattle.std.specs.Prelude.{◌≡◌, ◌==◌, ◌++◌, map, filter, None, IfOk};
ghost use Rattle.defs_soar.specs.Pending.{least};
ghost use Rattle.pending_work.specs.Active.{active_of, depth_at, lesser, least_from};

use crate::work::Work;
use defs_match::Instance;
use defs_soar::Goal;
use outstanding::Live;
use soar_levels::match_depth;
use soar_sym::{List, NoMemory};
use soar_wm::Memory;
use std::alloc::Global;

/// The firings and the instances of the least depth that any of them has.
pub fn of_active_level(
    alloc: Global,
    goals: &[Goal],
    memory: &Memory,
    gone: List<Live>,
    instances: List<Instance>,
) -> Result<Work, NoMemory>
    ensures { IfOk result (λ work. work ≡ active_of goals.now memory.now.elements gone instances) }
{
    let level = active_level(goals, memory, gone.as_slice(), instances.as_slice());
    let retracted = firings_at(alloc, level, gone)?;
    let fired = instances_at(alloc, level, goals, memory, instances)?;
    Ok(Work { retracted, fired })
}

/// The least depth of any of these, and 0 where there are none.
fn active_level(goals: &[Goal], memory: &Memory, gone: &[Live], instances: &[Instance]) -> usize
    ensures { result ≡ least (map (λ g. g.depth) gone.now ++ map (depth_at goals.now memory.now.elements) instances.now) }
{
    least_of_instances(goals, memory, instances, least_of_gone(gone)).unwrap_or(0)
}

fn least_of_gone(gone: &[Live]) -> Option<usize>
    ensures { result ≡ least_from None (map (λ g. g.depth) gone.now) }
{
    let mut least = None;
    'gone: for one in gone {
        least = Some(lesser(least, one.depth));
    }
    least
}

/// The least depth of any of these, or the one found before.
fn least_of_instances(
    goals: &[Goal],
    memory: &Memory,
    instances: &[Instance],
    before: Option<usize>,
) -> Option<usize>
    ensures { result ≡ least_from before (map (depth_at goals.now memory.now.elements) instances.now) }
{
    let mut least = before;
    'instances: for instance in instances {
        least = Some(lesser(least, match_depth(goals, memory, instance.tags.as_slice())));
    }
    least
}

fn lesser(least: Option<usize>, depth: usize) -> usize
    ensures { result ≡ lesser least depth }
{
    match least {
        Some(other) => other.min(depth),
        None => depth,
    }
}

/// The firings of a depth, in order.
fn firings_at(alloc: Global, level: usize, gone: List<Live>) -> Result<List<Live>, NoMemory>
    ensures { IfOk result (λ at. at ≡ filter (λ g. g.depth == level) gone) }
{
    let mut at = List::from_vec(Vec::with_capacity(alloc, gone.len())?);
    'gone: for one in gone.into_vec() {
        if one.depth == level {
            at.push(one)?;
        }
    }
    Ok(at)
}

/// The instances of a depth, in order.
fn instances_at(
    alloc: Global,
    level: usize,
    goals: &[Goal],
    memory: &Memory,
    instances: List<Instance>,
) -> Result<List<Instance>, NoMemory>
    ensures { IfOk result (λ at. at ≡ filter (λ i. depth_at goals.now memory.now.elements i == level) instances) }
{
    let mut at = List::from_vec(Vec::with_capacity(alloc, instances.len())?);
    'instances: for instance in instances.into_vec() {
        if match_depth(goals, memory, instance.tags.as_slice()) == level {
            at.push(instance)?;
        }
    }
    Ok(at)
}
