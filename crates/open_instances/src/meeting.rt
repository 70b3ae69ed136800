// A live firing that comes or goes.
ghost use Rattle.std.specs.Prelude.{◌≡◌, false, None, OnOk, is_some, if◌then◌else◌};
ghost use Rattle.std.specs.BTreeMap as map;
ghost use Rattle.std.specs.BTreeSet as set;
ghost use Rattle.open_instances.specs.Keys.{KeyOf, alike, key_cmp};
ghost use Rattle.open_instances.specs.Meeting.{Loses, Meets};

use crate::counts::{lower, raise};
use crate::kept::Kept;
use crate::keys::{add_key, copy_of};
use boxed_values::Boxed;
use defs_match::Instance;
use match_changes::MatchKey;
use soar_sym::NoMemory;
use std::alloc::Global;
use std::collections::{BTreeMap, BTreeSet};

/// A firing of the key came. Where its instance was open, it is so no more, and nothing is noted; else the key is to be
/// looked at again.
pub fn meet(alloc: Global, kept: &mut Kept, key: MatchKey) -> Result<(), NoMemory>
    ensures { OnOk result (Meets key kept.old kept.new) }
{
    if take_open(&mut kept.free, &key) {
        return raise(&mut kept.counts, key);
    }
    let counted = copy_of(alloc, &key)?;
    raise(&mut kept.counts, counted)?;
    add_key(&mut kept.touched, key)
}

/// A firing of the key went. Where another is left, all stays as it was; where none is left and the key was gone, it is so
/// no more. In both cases nothing is noted; else the key is to be looked at again.
pub fn lose(kept: &mut Kept, key: MatchKey) -> Result<(), NoMemory>
    ensures { OnOk result (Loses key kept.old kept.new) }
{
    if lower(&mut kept.counts, &key) || take_gone(&mut kept.gone, &key) {
        return Ok(());
    }
    add_key(&mut kept.touched, key)
}

/// Takes the instance of a key out, and says whether there was one.
fn take_open(free: &mut BTreeMap<MatchKey, Boxed<Instance>>, key: &MatchKey) -> bool
    ensures was { result ≡ is_some (map.get key_cmp free.old key.now) }
    ensures taken { (q : KeyOf) → map.get key_cmp free.new q ≡ (if alike key.now q then None else map.get key_cmp free.old q) }
{
    free.remove(key).is_some()
}

/// Takes a key out, and says whether it was there.
fn take_gone(gone: &mut BTreeSet<MatchKey>, key: &MatchKey) -> bool
    ensures was { result ≡ set.contains key_cmp gone.old key.now }
    ensures taken { (q : KeyOf) → set.contains key_cmp gone.new q ≡ (if alike key.now q then false else set.contains key_cmp gone.old q) }
{
    gone.remove(key)
}
