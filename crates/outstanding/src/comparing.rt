// The whole conflict set and all live firings, compared.
ghost use Rattle.std.specs.Prelude.{◌≡◌, filter, not, IfOk};
ghost use Rattle.match_changes.specs.Told.{of_rule};
ghost use Rattle.outstanding.specs.Keys.{has_key};
ghost use Rattle.outstanding.specs.Outstanding.{unfired, unmatched};

use crate::answer::Open;
use crate::instances::InstanceSet;
use defs_match::Instance;
use live_firings::{Live, LiveFirings, copy_of};
use soar_sym::{List, NoMemory};
use std::alloc::Global;

/// What is outstanding, where these are the instances of the conflict set.
pub fn compare(
    alloc: Global,
    instances: List<Instance>,
    live: &LiveFirings,
) -> Result<Open, NoMemory>
    ensures unfired { IfOk result (λ answer. answer.unfired ≡ unfired instances live.now.list) }
    ensures unmatched { IfOk result (λ answer. answer.unmatched ≡ unmatched instances live.now.list) }
{
    let matched = InstanceSet::of(alloc, instances.as_slice())?;
    let unmatched = outside(alloc, live, &matched)?;
    let fired = InstanceSet::of_live(alloc, live)?;
    let unfired = without(alloc, instances, &fired)?;
    Ok(Open { unfired, unmatched })
}

/// Copies of the live firings whose instances are not among these.
fn outside(alloc: Global, live: &LiveFirings, matched: &InstanceSet) -> Result<List<Live>, NoMemory>
    ensures { IfOk result (λ outside. outside ≡ filter (λ l. not (has_key matched.now l.instance)) live.now.list) }
{
    let mut outside = List::new(alloc);
    'live: for firing in live.all() {
        if !matched.has(&firing.instance)? {
            outside.push(copy_of(alloc, firing)?)?;
        }
    }
    Ok(outside)
}

/// The instances that are not among the fired ones.
fn without(
    alloc: Global,
    instances: List<Instance>,
    fired: &InstanceSet,
) -> Result<List<Instance>, NoMemory>
    ensures { IfOk result (λ without. without ≡ filter (λ i. not (has_key fired.now i)) instances) }
{
    let mut without = List::new(alloc);
    'instances: for instance in instances.into_vec() {
        if !fired.has(&instance)? {
            without.push(instance)?;
        }
    }
    Ok(without)
}

/// Those of the rule of a number.
pub fn of_rule(
    alloc: Global,
    instances: List<Instance>,
    number: u64,
) -> Result<List<Instance>, NoMemory>
    ensures { IfOk result (λ found. found ≡ of_rule number instances) }
{
    let mut found = List::new(alloc);
    'instances: for instance in instances.into_vec() {
        if instance.rule == number {
            found.push(instance)?;
        }
    }
    Ok(found)
}
