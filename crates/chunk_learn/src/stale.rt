ghost use Rattle.std.specs.Prelude.{◌≡◌, map, IfOk};
ghost use Rattle.defs_soar.specs.Stale.{blocked_from, tag_lost};
ghost use Rattle.soar_rule.specs.Conditions.{condition};
ghost use Rattle.chunk_learn.specs.Candidates.{blocking_told};

use crate::blocking::first_blocked;
use soar_rule::Cond;
use soar_sym::NoMemory;
use soar_wm::{Element, Memory};
use std::alloc::Global;

/// The least tag of a ground that working memory has no longer.
pub fn tag_lost(grounds: &[Element], memory: &Memory) -> Option<u32>
    ensures { result ≡ tag_lost memory.now.elements grounds.now }
{
    'grounds: for ground in grounds {
        if memory.get(ground.tag).is_none() {
            return Some(ground.tag);
        }
    }
    None
}

/// The place of the first negation that is blocked, from 1, and the tag of the first element of its first blocking row.
#[tactic(auto, using(crate::proofs::BlockingLemmas::told_is))]
pub fn blocked(
    alloc: Global,
    negations: &[Cond],
    memory: &Memory,
) -> Result<Option<(u32, u32)>, NoMemory>
    ensures { IfOk result (λ found. found ≡ blocking_told (blocked_from 1 memory.now.elements (map condition negations.now))) }
{
    let elements = memory.all(alloc)?;
    let found = first_blocked(alloc, negations, elements.as_slice())?;
    Ok(found)
}
