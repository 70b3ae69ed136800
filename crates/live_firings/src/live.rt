ghost use Rattle.std.specs.Prelude.{◌≡◌, IfOk};

use defs_match::Instance;
use soar_sym::{List, NoMemory, Sym};
use std::alloc::Global;

/// A firing that was not retracted yet: its number, the name of its rule, the depth of its match goal, and its instance.
#[derive(Drop)]
pub struct Live {
    pub number: u64,
    pub name: Sym,
    pub depth: usize,
    pub instance: Instance,
}

/// A copy of a live firing.
pub fn copy_of(alloc: Global, firing: &Live) -> Result<Live, NoMemory>
    ensures { IfOk result (λ copy. copy ≡ firing.now) }
{
    let instance = Instance {
        rule: firing.instance.rule,
        tags: List::from_slice(alloc, firing.instance.tags.as_slice())?,
        binds: List::from_slice(alloc, firing.instance.binds.as_slice())?,
    };
    Ok(Live {
        number: firing.number,
        name: firing.name,
        depth: firing.depth,
        instance,
    })
}
