// What is open, as a list.
ghost use Rattle.std.specs.Prelude.{◌≡◌, IfOk};
ghost use Rattle.std.specs.BTreeMap as map;
ghost use Rattle.open_instances.specs.Keys.{key_cmp};

use boxed_values::Boxed;
use defs_match::Instance;
use match_changes::MatchKey;
use soar_sym::{List, NoMemory};
use std::alloc::Global;
use std::collections::BTreeMap;

/// Copies of the open instances, in order of their keys.
pub fn unfired(
    alloc: Global,
    free: &BTreeMap<MatchKey, Boxed<Instance>>,
) -> Result<List<Instance>, NoMemory>
    ensures copies { IfOk result (λ unfired. unfired ≡ map.values free.now) }
{
    let mut unfired = List::from_vec(Vec::with_capacity(alloc, free.len())?);
    'free: for instance in free.values() {
        unfired.push(copy_of(alloc, instance)?)?;
    }
    Ok(unfired)
}

fn copy_of(alloc: Global, instance: &Instance) -> Result<Instance, NoMemory>
    ensures { IfOk result (λ copy. copy ≡ instance.now) }
{
    Ok(Instance {
        rule: instance.rule,
        tags: List::from_slice(alloc, instance.tags.as_slice())?,
        binds: List::from_slice(alloc, instance.binds.as_slice())?,
    })
}

/// The keys of a map are in order.
pub fn open_is_ordered(free: &BTreeMap<MatchKey, Boxed<Instance>>)
    ensures { map.IsOrdered key_cmp free.now }
{
    let _ = free.len();
}
