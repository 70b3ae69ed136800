// Looking at a key again.
ghost use Rattle.std.specs.Prelude.{◌≡◌, ◌||◌, OnOk, if◌then◌else◌, Some, List as ListOf};
ghost use Rattle.std.specs.BTreeMap as map;
ghost use Rattle.std.specs.BTreeSet as set;
ghost use Rattle.defs_match.specs.declared.instance.Instance.{Instance as InstanceOf};
ghost use Rattle.match_changes.specs.Told.{IsTheOne};
ghost use Rattle.open_instances.specs.Keeping.{AreLooked, AreLookedBut, gone_of, open_of};
ghost use Rattle.open_instances.specs.Keys.{KeyOf, alike, key_cmp};

use crate::counts::is_live;
use crate::kept::Kept;
use crate::keys::copy_of;
use boxed_values::Boxed;
use defs_match::Instance;
use match_changes::MatchKey;
use soar_sym::NoMemory;
use std::alloc::Global;
use std::collections::{BTreeMap, BTreeSet};

/// Keeps what is open and gone of a key, where its instance, if there is one, is found again.
pub fn look_at(
    alloc: Global,
    kept: &mut Kept,
    key: MatchKey,
    found: Option<Instance>,
) -> Result<(), NoMemory>
    ensures kept { OnOk result ((instances : ListOf InstanceOf) → IsTheOne instances key found → AreLookedBut key instances kept.old → AreLooked instances kept.new) }
    ensures touched { OnOk result (kept.new.touched ≡ kept.old.touched) }
    ensures counts { OnOk result (kept.new.counts ≡ kept.old.counts) }
    ensures stale { OnOk result (kept.new.stale ≡ kept.old.stale) }
{
    let live = is_live(&kept.counts, &key);
    set_gone(alloc, &mut kept.gone, &key, is_gone(live, &found))?;
    set_open(alloc, &mut kept.free, key, open_of(live, found))
}

/// What is open of a key: its instance, unless a live firing has it.
fn open_of(live: bool, found: Option<Instance>) -> Option<Instance>
    ensures { result ≡ open_of live found }
{
    if live { None } else { found }
}

/// Whether a live firing has a key that has no instance.
fn is_gone(live: bool, found: &Option<Instance>) -> bool
    ensures { result ≡ gone_of live found.now }
{
    live && found.is_none()
}

/// Puts the instance of a key in, or takes it out.
fn set_open(
    alloc: Global,
    free: &mut BTreeMap<MatchKey, Boxed<Instance>>,
    key: MatchKey,
    instance: Option<Instance>,
) -> Result<(), NoMemory>
    ensures { OnOk result ((q : KeyOf) → map.get key_cmp free.new q ≡ (if alike key q then instance else map.get key_cmp free.old q)) }
{
    match instance {
        Some(instance) => put_open(alloc, free, key, instance),
        None => {
            free.remove(&key);
            Ok(())
        }
    }
}

fn put_open(
    alloc: Global,
    free: &mut BTreeMap<MatchKey, Boxed<Instance>>,
    key: MatchKey,
    instance: Instance,
) -> Result<(), NoMemory>
    ensures { OnOk result ((q : KeyOf) → map.get key_cmp free.new q ≡ (if alike key q then Some instance else map.get key_cmp free.old q)) }
{
    free.insert(key, Boxed::new(alloc, instance)?)?;
    Ok(())
}

/// Puts a key in, or takes it out.
fn set_gone(
    alloc: Global,
    gone: &mut BTreeSet<MatchKey>,
    key: &MatchKey,
    is_gone: bool,
) -> Result<(), NoMemory>
    ensures { OnOk result ((q : KeyOf) → set.contains key_cmp gone.new q ≡ (if alike key.now q then is_gone else set.contains key_cmp gone.old q)) }
{
    if is_gone {
        put_gone(gone, copy_of(alloc, key)?)
    } else {
        gone.remove(key);
        Ok(())
    }
}

fn put_gone(gone: &mut BTreeSet<MatchKey>, key: MatchKey) -> Result<(), NoMemory>
    ensures { OnOk result ((q : KeyOf) → set.contains key_cmp gone.new q ≡ (alike key q || set.contains key_cmp gone.old q)) }
{
    gone.insert(key)?;
    Ok(())
}
