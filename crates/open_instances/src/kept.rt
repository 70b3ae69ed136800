ghost use Rattle.std.specs.Prelude.{◌≡◌, true, []};

use boxed_values::Boxed;
use defs_match::Instance;
use indexmap::IndexSet;
use match_changes::MatchKey;
use std::alloc::Global;
use std::collections::{BTreeMap, BTreeSet, HashMap};

/// What is open and what is gone, by key, but for the keys that are to be looked at again.
#[derive(Drop)]
pub struct Kept {
    /// The instances that no live firing has.
    pub free: BTreeMap<MatchKey, Boxed<Instance>>,
    /// The keys of live firings whose instances are not in the conflict set.
    pub gone: BTreeSet<MatchKey>,
    /// How many live firings have the instance of a key.
    pub counts: HashMap<MatchKey, u64>,
    /// The keys that are to be looked at again.
    pub touched: IndexSet<MatchKey>,
    /// Whether all is to be compared anew.
    pub stale: bool,
}

impl Kept {
    /// Nothing, to be compared anew. It takes no memory.
    pub fn new(alloc: Global) -> Kept
        ensures free { result.free.entries ≡ [] }
        ensures gone { result.gone.keys ≡ [] }
        ensures counts { result.counts.entries ≡ [] }
        ensures touched { result.touched.keys ≡ [] }
        ensures stale { result.stale ≡ true }
    {
        Kept {
            free: BTreeMap::new(alloc),
            gone: BTreeSet::new(alloc),
            counts: HashMap::new(alloc),
            touched: IndexSet::new(alloc),
            stale: true,
        }
    }
}
