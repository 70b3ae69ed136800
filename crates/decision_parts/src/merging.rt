// Goals that went, in the order of their depths.
ghost use Rattle.std.specs.Prelude.{◌≡◌, map, not, nat_lt, IfOk};
ghost use Rattle.std.specs.List.{prefix_len};
ghost use Rattle.defs_soar.specs.Trimming.{with_all_removed, with_removed};
ghost use Rattle.step_report.specs.Reports.{removed_seen};

use soar_sym::{List, NoMemory};
use std::alloc::Global;
use step_report::Removed;

/// The goals that went earlier, and each that went later in its place among them.
pub fn with_all_removed(
    alloc: Global,
    earlier: List<Removed>,
    later: &[Removed],
) -> Result<List<Removed>, NoMemory>
    ensures { IfOk result (λ all. map removed_seen all ≡ with_all_removed (map removed_seen later.now) (map removed_seen earlier)) }
{
    let mut all = earlier;
    'later: for goal in later {
        all = with_removed(alloc, all.as_slice(), *goal)?;
    }
    Ok(all)
}

/// With one goal more, in front of those that are deeper.
fn with_removed(
    alloc: Global,
    removed: &[Removed],
    goal: Removed,
) -> Result<List<Removed>, NoMemory>
    ensures { IfOk result (λ all. map removed_seen all ≡ with_removed (removed_seen goal) (map removed_seen removed.now)) }
{
    let (above, deeper) = removed.split_at(count_above(removed, goal.depth));
    let mut all = List::from_slice(alloc, above)?;
    all.push(goal)?;
    all.extend_from_slice(deeper)?;
    Ok(all)
}

/// How many goals stand in front of the first that is deeper than this.
fn count_above(removed: &[Removed], depth: u64) -> usize
    ensures { result ≡ prefix_len (λ other. not (nat_lt depth other.depth)) removed.now }
{
    removed
        .iter()
        .take_while(|other| !(depth < other.depth))
        .count()
}
