// The numbers of the firings that explain others.
ghost use Rattle.std.specs.Prelude.{◌≡◌, IfOk, OnOk, flat_map};
ghost use Rattle.defs_soar.specs.Explanation.{explaining, maker_named, with_numbers};
ghost use Rattle.defs_soar.specs.Standing.{AreFrom};
ghost use Rattle.chunk_back.specs.Makers.{MakersAreEarlier};
ghost use Rattle.chunk_back.specs.Walk.{makers_behind};

use crate::waiting::Waiting;
use defs_soar::{How, Keeps, Used};
use soar_sym::NoMemory;
use std::alloc::Global;
use std::collections::BTreeSet;

/// The numbers of the roots and of all that they rest on, as a set (Soar manual, chapter 4, backtracing).
pub fn numbers_behind<K: Keeps>(
    alloc: Global,
    kept: &K,
    roots: &[u64],
) -> Result<BTreeSet<u64>, NoMemory>
    requires once { AreFrom (K.kept kept.now) (K.kept kept.now) }
    requires earlier { MakersAreEarlier (K.kept kept.now) }
    ensures { IfOk result (λ numbers. numbers.keys ≡ explaining (K.kept kept.now) roots.now) }
{
    let found = explaining(alloc, kept, roots)?;
    let mut numbers = Waiting::new(alloc);
    add_numbers(&mut numbers, found.as_slice())?;
    Ok(numbers.into_set())
}

/// The numbers of the roots and of all that they rest on, from the least. Makers are earlier than what
/// they made, so the walk goes down from the greatest number, and comes to each once.
pub(crate) fn explaining<K: Keeps>(
    alloc: Global,
    kept: &K,
    roots: &[u64],
) -> Result<Vec<u64>, NoMemory>
    requires once { AreFrom (K.kept kept.now) (K.kept kept.now) }
    requires earlier { MakersAreEarlier (K.kept kept.now) }
    ensures { IfOk result (λ numbers. numbers.items ≡ explaining (K.kept kept.now) roots.now) }
{
    let mut waiting = Waiting::new(alloc);
    add_numbers(&mut waiting, roots)?;
    let mut found = Vec::new(alloc);
    'walk: while let Some(number) = waiting.take_greatest() {
        add_makers_behind(&mut waiting, kept, number)?;
        found.push(number)?;
    }
    found.reverse();
    Ok(found)
}

fn add_numbers(waiting: &mut Waiting, numbers: &[u64]) -> Result<(), NoMemory>
    ensures { OnOk result (waiting.new ≡ with_numbers numbers.now waiting.old) }
{
    'numbers: for at in (0..numbers.len()).rev() {
        waiting.add(numbers[at])?;
    }
    Ok(())
}

/// Lets the makers of what the firing of a number used wait.
fn add_makers_behind<K: Keeps>(waiting: &mut Waiting, kept: &K, number: u64) -> Result<(), NoMemory>
    requires { AreFrom (K.kept kept.now) (K.kept kept.now) }
    ensures { OnOk result (waiting.new ≡ with_numbers (makers_behind (K.kept kept.now) number) waiting.old) }
{
    match kept.firing(number) {
        Some(firing) => add_makers(waiting, firing.used.as_slice()),
        None => Ok(()),
    }
}

fn add_makers(waiting: &mut Waiting, used: &[Used]) -> Result<(), NoMemory>
    ensures { OnOk result (waiting.new ≡ with_numbers (flat_map maker_named used.now) waiting.old) }
{
    'used: for at in (0..used.len()).rev() {
        if let How::Made(number) = used[at].how {
            waiting.add(number)?;
        }
    }
    Ok(())
}
