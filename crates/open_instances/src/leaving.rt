// A rule that goes.
ghost use Rattle.std.specs.Prelude.{◌≡◌, ◌&&◌, ◌||◌, ◌==◌, not, List as ListOf};
ghost use Rattle.std.specs.BTreeMap as map;
ghost use Rattle.std.specs.BTreeSet as set;
ghost use Rattle.std.specs.HashMap as table;
ghost use Rattle.std.specs.List.{list_any};
ghost use Rattle.defs_match.specs.declared.instance.Instance.{Instance as InstanceOf};
ghost use Rattle.open_instances.specs.Keeping.{Fits, LosesRule, live_test, open_test};
ghost use Rattle.open_instances.specs.Keys.{key_cmp};
ghost use Rattle.open_instances.specs.Noted as noted;

use crate::kept::Kept;
use crate::keys::is_noted;
use boxed_values::Boxed;
use defs_match::Instance;
use indexmap::IndexSet;
use match_changes::MatchKey;
use std::collections::{BTreeMap, BTreeSet, HashMap};

/// The rule of a number goes. Where one of its instances is open, or is that of a live firing, and is not to be looked at
/// again, all is compared anew. It takes no memory.
pub fn leave_rule(kept: &mut Kept, number: u64)
    ensures kept { (before after : ListOf InstanceOf) → LosesRule before after number → Fits before kept.old → Fits after kept.new }
    ensures counts { kept.new.counts ≡ kept.old.counts }
{
    if has_any(kept, number) {
        kept.stale = true;
    }
}

/// Whether something of the rule is kept that is not to be looked at again.
fn has_any(kept: &Kept, number: u64) -> bool
    ensures { result ≡ (list_any (open_test kept.now number) (map.keys kept.now.free) || list_any (live_test kept.now number) (table.keys kept.now.counts)) }
{
    has_open(&kept.free, &kept.touched, number)
        || has_live(&kept.counts, &kept.gone, &kept.touched, number)
}

/// Whether an instance of the rule is open and is not to be looked at again.
fn has_open(
    free: &BTreeMap<MatchKey, Boxed<Instance>>,
    touched: &IndexSet<MatchKey>,
    number: u64,
) -> bool
    ensures { result ≡ list_any (λ k. (k.rule == number) && not (noted.contains key_cmp touched.now k)) (map.keys free.now) }
{
    free.keys()
        .any(|key| key.rule == number && !is_noted(touched, key))
}

/// Whether a live firing has an instance of the rule that is in the conflict set and is not to be looked at again.
fn has_live(
    counts: &HashMap<MatchKey, u64>,
    gone: &BTreeSet<MatchKey>,
    touched: &IndexSet<MatchKey>,
    number: u64,
) -> bool
    ensures { result ≡ list_any (λ k. (k.rule == number) && (not (set.contains key_cmp gone.now k) && not (noted.contains key_cmp touched.now k))) (table.keys counts.now) }
{
    counts.keys().any(|key| key.rule == number && !gone.contains(key) && !is_noted(touched, key))
}
