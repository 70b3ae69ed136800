// How many live firings have the instance of a key.
ghost use Rattle.std.specs.Prelude.{◌≡◌, ◌<◌, ◌+◌, ◌-◌, nat_lt, OnOk, if◌then◌else◌};
ghost use Rattle.open_instances.specs.Keys.{KeyOf, alike, count_in, held_in, same_key};

use match_changes::MatchKey;
use soar_sym::NoMemory;
use std::collections::HashMap;

/// Whether a live firing has the instance of a key.
#[tactic(auto, using(crate::proofs::CountLemmas::held_as_counted))]
pub(crate) fn is_live(counts: &HashMap<MatchKey, u64>, key: &MatchKey) -> bool
    ensures { result ≡ nat_lt 0 (count_in counts.now key.now) }
{
    count_of(counts, key) > 0
}

fn count_of(counts: &HashMap<MatchKey, u64>, key: &MatchKey) -> u64
    ensures { result ≡ held_in counts.now key.now }
{
    counts.get(key).copied().unwrap_or(0)
}

/// One firing more.
pub(crate) fn raise(counts: &mut HashMap<MatchKey, u64>, key: MatchKey) -> Result<(), NoMemory>
    ensures { OnOk result ((q : KeyOf) → count_in counts.new q ≡ (if alike key q then count_in counts.old q + 1 else count_in counts.old q)) }
{
    let Some(count) = count_of(counts, &key).checked_add(1) else {
        return Err(NoMemory);
    };
    counts.insert(key, count)?;
    Ok(())
}

/// One firing less. It says whether one is left, and takes no memory.
pub(crate) fn lower(counts: &mut HashMap<MatchKey, u64>, key: &MatchKey) -> bool
    ensures left { result ≡ nat_lt 1 (count_in counts.old key.now) }
    ensures lowered { (q : KeyOf) → count_in counts.new q ≡ (if alike key.now q then count_in counts.old q - 1 else count_in counts.old q) }
{
    let count = count_of(counts, key);
    if count > 1 {
        set_count(counts, key, count - 1);
        true
    } else {
        counts.remove(key);
        false
    }
}

/// Writes the count of a key that has one.
fn set_count(counts: &mut HashMap<MatchKey, u64>, key: &MatchKey, count: u64)
    requires { 0 < held_in counts.old key.now }
    ensures { (q : KeyOf) → held_in counts.new q ≡ (if same_key key.now q then count else held_in counts.old q) }
{
    if let Some(place) = counts.get_mut(key) {
        *place = count;
    }
}
