// What may have changed.
ghost use Rattle.std.specs.Prelude.{◌≡◌, ◌||◌, false, IfOk, OnOk, List as ListOf};
ghost use Rattle.std.specs.HashMap as table;
ghost use Rattle.std.specs.List.{list_any};
ghost use Rattle.defs_match.specs.declared.instance.Instance.{Instance as InstanceOf};
ghost use Rattle.match_changes.specs.Told.{AreTold, key_of};
ghost use Rattle.open_instances.specs.Keeping.{AreLooked, Fits};
ghost use Rattle.open_instances.specs.Keys.{KeyOf, alike, key_cmp};
ghost use Rattle.open_instances.specs.Noted as set;

use crate::kept::Kept;
use crate::keys::{add_key, add_keys, copy_of, key_of};
use defs_match::Instance;
use indexmap::IndexSet;
use match_changes::MatchKey;
use soar_sym::{List, NoMemory};
use std::alloc::Global;
use std::collections::{BTreeMap, BTreeSet, HashMap};

/// Notes the keys that a change told.
pub fn told(kept: &mut Kept, keys: List<MatchKey>) -> Result<(), NoMemory>
    ensures fits { OnOk result ((before after : ListOf InstanceOf) → AreTold before after keys → Fits before kept.old → Fits after kept.new) }
    ensures counts { OnOk result (kept.new.counts ≡ kept.old.counts) }
{
    add_keys(&mut kept.touched, keys)
}

/// Begins anew, with all instances of the conflict set and all keys of live firings to look at.
pub fn renew(alloc: Global, kept: &mut Kept, instances: &[Instance]) -> Result<(), NoMemory>
    ensures kept { OnOk result (AreLooked instances.now kept.new) }
    ensures counts { OnOk result (kept.new.counts ≡ kept.old.counts) }
    ensures stale { OnOk result (kept.new.stale ≡ false) }
{
    let mut touched = keys_of(alloc, instances)?;
    add_counted(alloc, &kept.counts, &mut touched)?;
    kept.free = BTreeMap::new(alloc);
    kept.gone = BTreeSet::new(alloc);
    kept.touched = touched;
    kept.stale = false;
    Ok(())
}

/// The keys of instances.
fn keys_of(alloc: Global, instances: &[Instance]) -> Result<IndexSet<MatchKey>, NoMemory>
    ensures { IfOk result (λ keys. (q : KeyOf) → set.contains key_cmp keys q ≡ list_any (λ i. alike (key_of i) q) instances.now) }
{
    let mut keys = IndexSet::new(alloc);
    'instances: for instance in instances {
        add_key(&mut keys, key_of(alloc, instance)?)?;
    }
    Ok(keys)
}

/// The keys that are counted.
fn add_counted(
    alloc: Global,
    counts: &HashMap<MatchKey, u64>,
    keys: &mut IndexSet<MatchKey>,
) -> Result<(), NoMemory>
    ensures { OnOk result ((q : KeyOf) → set.contains key_cmp keys.new q ≡ (set.contains key_cmp keys.old q || list_any (λ k. alike k q) (table.keys counts.now))) }
{
    'counts: for key in counts.keys() {
        add_key(keys, copy_of(alloc, key)?)?;
    }
    Ok(())
}
