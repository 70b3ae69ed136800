// The live firings that came and went.
ghost use Rattle.std.specs.Prelude.{◌≡◌, OnOk, List as ListOf};
ghost use Rattle.defs_match.specs.declared.instance.Instance.{Instance as InstanceOf};
ghost use Rattle.open_instances.specs.Keeping.{AreLooked, Counts};
ghost use Rattle.live_firings.specs.Living.{keys_of};
ghost use Rattle.outstanding.specs.Following.{LosesAll, MeetsAll};

use live_firings::LiveFirings;
use match_changes::MatchKey;
use open_instances::{Kept, lose, meet};
use soar_sym::{List, NoMemory};
use std::alloc::Global;

/// Takes up what live firings came and went. Where what is kept does not tell what is so of a key now, it is to be looked
/// at again.
pub fn follow(alloc: Global, kept: &mut Kept, live: &mut LiveFirings) -> Result<(), NoMemory>
    requires counted { Counts kept.old.counts (keys_of live.old.told) }
    ensures kept { OnOk result ((instances : ListOf InstanceOf) → AreLooked instances kept.old → AreLooked instances kept.new) }
    ensures counted { OnOk result (Counts kept.new.counts (keys_of live.old.list)) }
    ensures list { live.new.list ≡ live.old.list }
    ensures told { OnOk result (live.new.told ≡ live.old.list) }
{
    let news = live.take_news(alloc)?;
    meet_all(alloc, kept, news.came)?;
    lose_all(kept, news.gone)
}

/// Firings of these keys came.
fn meet_all(alloc: Global, kept: &mut Kept, keys: List<MatchKey>) -> Result<(), NoMemory>
    ensures { OnOk result (MeetsAll keys kept.old kept.new) }
{
    'keys: for key in keys.into_vec() {
        meet(alloc, kept, key)?;
    }
    Ok(())
}

/// Firings of these keys went.
fn lose_all(kept: &mut Kept, keys: List<MatchKey>) -> Result<(), NoMemory>
    ensures { OnOk result (LosesAll keys kept.old kept.new) }
{
    'keys: for key in keys.into_vec() {
        lose(kept, key)?;
    }
    Ok(())
}
