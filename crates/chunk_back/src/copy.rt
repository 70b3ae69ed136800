// Copies of firings.
ghost use Rattle.std.specs.Prelude.{◌≡◌, IfOk};

use defs_match::Instance;
use defs_soar::Firing;
use soar_sym::{List, NoMemory};
use std::alloc::Global;

/// A copy that shares only the production with it.
pub(crate) fn copy_firing(alloc: Global, firing: &Firing) -> Result<Firing, NoMemory>
    ensures { IfOk result (λ copy. copy ≡ firing.now) }
{
    let rule = firing.rule.share()?;
    let instance = copy_instance(alloc, &firing.instance)?;
    let goals = List::from_slice(alloc, firing.goals.as_slice())?;
    let used = List::from_slice(alloc, firing.used.as_slice())?;
    let made = List::from_slice(alloc, firing.made.as_slice())?;
    Ok(Firing {
        number: firing.number,
        name: firing.name,
        rule,
        depth: firing.depth,
        instance,
        goals,
        used,
        made,
    })
}

fn copy_instance(alloc: Global, instance: &Instance) -> Result<Instance, NoMemory>
    ensures { IfOk result (λ copy. copy ≡ instance.now) }
{
    Ok(Instance {
        rule: instance.rule,
        tags: List::from_slice(alloc, instance.tags.as_slice())?,
        binds: List::from_slice(alloc, instance.binds.as_slice())?,
    })
}
