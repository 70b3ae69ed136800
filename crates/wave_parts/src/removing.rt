// The goals that settling removes, which are the last of the stack.
ghost use Rattle.std.specs.Prelude.{◌≡◌, ◌≤◌, map, drop, length, IfOk};
ghost use Rattle.defs_soar.specs.Trimming.{at_depths};
ghost use Rattle.step_report.specs.Reports.{removed_seen};

use defs_soar::Goal;
use soar_sym::{List, NoMemory};
use std::alloc::Global;
use step_report::Removed;

/// Goals with their depths, the first of them at depth 1.
pub fn at_depths(alloc: Global, goals: &[Goal]) -> Result<List<Removed>, NoMemory>
    ensures { IfOk result (λ all. map removed_seen all ≡ at_depths 1 goals.now) }
{
    let mut all = List::new(alloc);
    'goals: for (above, goal) in goals.iter().enumerate() {
        all.push(Removed {
            goal: goal.id,
            depth: above as u64 + 1,
        })?;
    }
    Ok(all)
}

/// Those behind the first ones, so many.
pub fn behind(alloc: Global, all: &[Removed], count: usize) -> Result<List<Removed>, NoMemory>
    requires { count ≤ length all.now }
    ensures { IfOk result (λ removed. removed ≡ drop count all.now) }
{
    let (_, removed) = all.split_at(count);
    Ok(List::from_slice(alloc, removed)?)
}
