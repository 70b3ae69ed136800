// What is outstanding, by what is kept.
ghost use Rattle.std.specs.Prelude.{◌≡◌, [], false, IfOk, OnOk, List as ListOf};
ghost use Rattle.conflict_order.specs.Order.{InstanceLess, Ordered};
ghost use Rattle.defs_match.specs.declared.instance.Instance.{Instance as InstanceOf};
ghost use Rattle.defs_match.specs.Conflict.{conflict};
ghost use Rattle.open_instances.specs.Keeping.{AreLooked, AreLookedBut, Counts};
ghost use Rattle.live_firings.specs.Living.{keys_of};
ghost use Rattle.outstanding.specs.Holding.{Holds};
ghost use Rattle.outstanding.specs.Outstanding.{unfired, unmatched};

use crate::answer::Open;
use crate::following::follow;
use defs_match::Matcher;
use live_firings::LiveFirings;
use match_changes::{MatchChanges, MatchKey};
use open_instances::{Kept, look_at, open_is_ordered, renew, unfired};
use soar_sym::NoMemory;
use std::alloc::Global;

/// What is outstanding: what changed is looked at again, and the rest is as it is kept.
pub fn ask<M: MatchChanges>(
    alloc: Global,
    matcher: &mut M,
    kept: &mut Kept,
    live: &mut LiveFirings,
) -> Result<Open, NoMemory>
    requires works { M.failed matcher.old ≡ false }
    requires holds { Holds (M.rules matcher.old) (M.elements matcher.old) kept.old }
    requires counted { Counts kept.old.counts (keys_of live.old.told) }
    ensures works { OnOk result (M.failed matcher.new ≡ false) }
    ensures unfired { IfOk result (λ answer. answer.unfired ≡ unfired (conflict (M.rules matcher.old) (M.elements matcher.old)) live.old.list) }
    ensures unmatched { IfOk result (λ answer. answer.unmatched ≡ unmatched (conflict (M.rules matcher.old) (M.elements matcher.old)) live.old.list) }
    ensures rules { OnOk result (M.rules matcher.new ≡ M.rules matcher.old) }
    ensures elements { OnOk result (M.elements matcher.new ≡ M.elements matcher.old) }
    ensures holds { OnOk result (Holds (M.rules matcher.new) (M.elements matcher.new) kept.new) }
    ensures counted { OnOk result (Counts kept.new.counts (keys_of live.old.list)) }
    ensures list { live.new.list ≡ live.old.list }
    ensures told { OnOk result (live.new.told ≡ live.old.list) }
{
    refresh(alloc, matcher, kept)?;
    follow(alloc, kept, live)?;
    look_again(alloc, matcher, kept)?;
    read(alloc, kept, live)
}

/// Begins anew where that is needed.
fn refresh<M: MatchChanges>(alloc: Global, matcher: &mut M, kept: &mut Kept) -> Result<(), NoMemory>
    requires works { M.failed matcher.old ≡ false }
    requires holds { Holds (M.rules matcher.old) (M.elements matcher.old) kept.old }
    ensures works { OnOk result (M.failed matcher.new ≡ false) }
    ensures rules { OnOk result (M.rules matcher.new ≡ M.rules matcher.old) }
    ensures elements { OnOk result (M.elements matcher.new ≡ M.elements matcher.old) }
    ensures kept { OnOk result (AreLooked (conflict (M.rules matcher.old) (M.elements matcher.old)) kept.new) }
    ensures counts { OnOk result (kept.new.counts ≡ kept.old.counts) }
{
    if kept.stale {
        begin_anew(alloc, matcher, kept)
    } else {
        Ok(())
    }
}

fn begin_anew<M: MatchChanges>(
    alloc: Global,
    matcher: &mut M,
    kept: &mut Kept,
) -> Result<(), NoMemory>
    requires works { M.failed matcher.old ≡ false }
    ensures works { OnOk result (M.failed matcher.new ≡ false) }
    ensures rules { OnOk result (M.rules matcher.new ≡ M.rules matcher.old) }
    ensures elements { OnOk result (M.elements matcher.new ≡ M.elements matcher.old) }
    ensures kept { OnOk result (AreLooked (conflict (M.rules matcher.old) (M.elements matcher.old)) kept.new) }
    ensures counts { OnOk result (kept.new.counts ≡ kept.old.counts) }
{
    let instances = matcher.conflict(alloc)?;
    renew(alloc, kept, instances.as_slice())
}

/// Looks at each key again of which something may have changed.
fn look_again<M: MatchChanges>(
    alloc: Global,
    matcher: &mut M,
    kept: &mut Kept,
) -> Result<(), NoMemory>
    requires works { M.failed matcher.old ≡ false }
    requires kept { AreLooked (conflict (M.rules matcher.old) (M.elements matcher.old)) kept.old }
    ensures works { OnOk result (M.failed matcher.new ≡ false) }
    ensures rules { OnOk result (M.rules matcher.new ≡ M.rules matcher.old) }
    ensures elements { OnOk result (M.elements matcher.new ≡ M.elements matcher.old) }
    ensures kept { OnOk result (AreLooked (conflict (M.rules matcher.old) (M.elements matcher.old)) kept.new) }
    ensures counts { OnOk result (kept.new.counts ≡ kept.old.counts) }
    ensures touched { OnOk result (kept.new.touched.keys ≡ []) }
{
    'touched: while let Some(key) = kept.touched.pop() {
        look(alloc, matcher, kept, key)?;
    }
    Ok(())
}

/// Looks at a key again.
fn look<M: MatchChanges>(
    alloc: Global,
    matcher: &mut M,
    kept: &mut Kept,
    key: MatchKey,
) -> Result<(), NoMemory>
    requires works { M.failed matcher.old ≡ false }
    requires kept { AreLookedBut key (conflict (M.rules matcher.old) (M.elements matcher.old)) kept.old }
    ensures works { OnOk result (M.failed matcher.new ≡ false) }
    ensures rules { OnOk result (M.rules matcher.new ≡ M.rules matcher.old) }
    ensures elements { OnOk result (M.elements matcher.new ≡ M.elements matcher.old) }
    ensures kept { OnOk result (AreLooked (conflict (M.rules matcher.old) (M.elements matcher.old)) kept.new) }
    ensures counts { OnOk result (kept.new.counts ≡ kept.old.counts) }
    ensures touched { OnOk result (kept.new.touched ≡ kept.old.touched) }
{
    let found = matcher.instance(alloc, &key)?;
    look_at(alloc, kept, key, found)
}

/// What is kept, where no key is to be looked at again.
fn read(alloc: Global, kept: &Kept, live: &LiveFirings) -> Result<Open, NoMemory>
    requires counted { Counts kept.now.counts (keys_of live.now.list) }
    requires touched { kept.now.touched.keys ≡ [] }
    ensures unfired { IfOk result (λ answer. (instances : ListOf InstanceOf) → Ordered InstanceLess instances → AreLooked instances kept.now → answer.unfired ≡ unfired instances live.now.list) }
    ensures unmatched { IfOk result (λ answer. (instances : ListOf InstanceOf) → AreLooked instances kept.now → answer.unmatched ≡ unmatched instances live.now.list) }
{
    open_is_ordered(&kept.free);
    Ok(Open {
        unfired: unfired(alloc, &kept.free)?,
        unmatched: live.of_keys(alloc, &kept.gone)?,
    })
}
