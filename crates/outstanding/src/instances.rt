// Instances in a set. Instances of one rule with the same tags are one.
ghost use Rattle.std.specs.Prelude.{◌≡◌, ◌||◌, [], map, IfOk, OnOk};
ghost use Rattle.defs_match.specs.declared.instance.Instance.{Instance as InstanceOf};
ghost use Rattle.defs_soar.specs.Pending.{instance_eq, is_listed};
ghost use Rattle.live_firings.specs.Living.{live_seen};
ghost use Rattle.outstanding.specs.Keys.{has_key, IsKeyOf};

use defs_match::Instance;
use live_firings::LiveFirings;
use soar_sym::NoMemory;
use std::alloc::Global;
use std::collections::BTreeSet;
use std::marker::Model;

/// Instances of which one can tell in short time whether one is among them.
#[derive(Drop)]
pub struct InstanceSet {
    tree: BTreeSet<(u64, Vec<u32>)>,
    alloc: Global,
}

impl Model for InstanceSet {
    ghost use Rattle.std.specs.Prelude.{List as ListOf, ℕ, map};

    ghost Value = { ListOf (ℕ × ListOf ℕ) };

    ghost view = { λ set. map (λ key. (key.0, key.1.items)) set.tree.keys };
}

impl InstanceSet {
    /// No instances. It takes no memory.
    pub fn new(alloc: Global) -> InstanceSet
        ensures { result ≡ [] }
    {
        InstanceSet {
            tree: BTreeSet::new(alloc),
            alloc,
        }
    }

    /// Whether an instance is among them.
    pub fn has(&self, instance: &Instance) -> Result<bool, NoMemory>
        ensures { IfOk result (λ has. has ≡ has_key self.now instance.now) }
    {
        let key = key_of(self.alloc, instance)?;
        Ok(self.tree.contains(&key))
    }

    /// One instance more.
    pub fn add(&mut self, instance: &Instance) -> Result<(), NoMemory>
        ensures { OnOk result ((i : InstanceOf) → has_key self.new i ≡ (instance_eq i instance.now || has_key self.old i)) }
    {
        let key = key_of(self.alloc, instance)?;
        self.tree.insert(key)?;
        Ok(())
    }

    /// These instances.
    pub fn of(alloc: Global, instances: &[Instance]) -> Result<InstanceSet, NoMemory>
        ensures { IfOk result (λ set. (i : InstanceOf) → has_key set i ≡ is_listed instances.now i) }
    {
        let mut set = InstanceSet::new(alloc);
        'instances: for instance in instances {
            set.add(instance)?;
        }
        Ok(set)
    }

    /// The instances of these live firings.
    pub fn of_live(alloc: Global, live: &LiveFirings) -> Result<InstanceSet, NoMemory>
        ensures { IfOk result (λ set. (i : InstanceOf) → has_key set i ≡ is_listed (map (λ l. l.instance) (map live_seen live.now.list)) i) }
    {
        let mut set = InstanceSet::new(alloc);
        'live: for firing in live.all() {
            set.add(&firing.instance)?;
        }
        Ok(set)
    }
}

/// The number of the rule, and the tags.
fn key_of(alloc: Global, instance: &Instance) -> Result<(u64, Vec<u32>), NoMemory>
    ensures { IfOk result (λ key. IsKeyOf instance.now (key.0, key.1.items)) }
{
    Ok((
        instance.rule,
        Vec::from_slice(alloc, instance.tags.as_slice())?,
    ))
}
