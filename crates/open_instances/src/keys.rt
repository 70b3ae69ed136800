// Keys, and sets of them.
ghost use Rattle.std.specs.Prelude.{◌≡◌, ◌||◌, IfOk, OnOk};
ghost use Rattle.std.specs.List.{list_any};
ghost use Rattle.match_changes.specs.Told.{key_of};
ghost use Rattle.open_instances.specs.Keys.{KeyOf, alike, key_cmp};
ghost use Rattle.open_instances.specs.Noted as set;

use defs_match::Instance;
use indexmap::IndexSet;
use match_changes::MatchKey;
use soar_sym::{List, NoMemory};
use std::alloc::Global;

/// A copy of a key.
pub fn copy_of(alloc: Global, key: &MatchKey) -> Result<MatchKey, NoMemory>
    ensures { IfOk result (λ copy. copy ≡ key.now) }
{
    Ok(MatchKey {
        rule: key.rule,
        tags: List::from_slice(alloc, key.tags.as_slice())?,
    })
}

/// The key of an instance.
pub fn key_of(alloc: Global, instance: &Instance) -> Result<MatchKey, NoMemory>
    ensures { IfOk result (λ key. key ≡ key_of instance.now) }
{
    Ok(MatchKey {
        rule: instance.rule,
        tags: List::from_slice(alloc, instance.tags.as_slice())?,
    })
}

/// Whether a key is among these.
#[tactic(auto, using(crate::proofs::NotedLemmas::found_as_noted))]
pub(crate) fn is_noted(keys: &IndexSet<MatchKey>, key: &MatchKey) -> bool
    ensures { result ≡ set.contains key_cmp keys.now key.now }
{
    keys.contains(key)
}

/// One key more.
pub(crate) fn add_key(keys: &mut IndexSet<MatchKey>, key: MatchKey) -> Result<(), NoMemory>
    ensures { OnOk result ((q : KeyOf) → set.contains key_cmp keys.new q ≡ (alike key q || set.contains key_cmp keys.old q)) }
{
    keys.insert(key)?;
    Ok(())
}

/// These keys more.
pub(crate) fn add_keys(keys: &mut IndexSet<MatchKey>, more: List<MatchKey>) -> Result<(), NoMemory>
    ensures { OnOk result ((q : KeyOf) → set.contains key_cmp keys.new q ≡ (list_any (λ k. alike k q) more || set.contains key_cmp keys.old q)) }
{
    'more: for key in more.into_vec() {
        add_key(keys, key)?;
    }
    Ok(())
}
