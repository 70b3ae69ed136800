ghost use Rattle.std.specs.Prelude.{◌≡◌, List as ListOf, OnOk, OnErr};
ghost use Rattle.agent_laws.specs.Records.{IsPartOf};
ghost use Rattle.chunk_back.specs.Makers.{MakersAreEarlier};
ghost use Rattle.defs_soar.specs.History.{FiringOf};
ghost use Rattle.record_laws.specs.Closed.{HasMakers};
ghost use Rattle.soar_record.specs.Recorded.{reached_by, recorded};

use agent_laws::{explanations_need_what_they_reach, parts_are_kept};
use chunk_back::numbers_behind;
use soar_record::Record;
use soar_sym::NoMemory;
use std::alloc::Global;

/// Drops the firings that these do not rest on (Soar manual, chapter 4, backtracing). No explanation that begins at
/// them needs others.
pub fn keep_only(alloc: Global, record: &mut Record, roots: &[u64]) -> Result<(), NoMemory>
    requires { MakersAreEarlier (recorded record.old) }
    ensures kept { OnOk result (recorded record.new ≡ reached_by roots.now (recorded record.old)) }
    ensures part { OnOk result ((history : ListOf FiringOf) → IsPartOf (recorded record.old) history roots.now → IsPartOf (recorded record.new) history roots.now) }
    ensures makers { HasMakers (recorded record.old) → OnOk result (HasMakers (recorded record.new)) }
    ensures err { OnErr result (record.new ≡ record.old) }
{
    explanations_need_what_they_reach();
    parts_are_kept();
    record.numbers_stand_once();
    let numbers = numbers_behind(alloc, &*record, roots)?;
    record.keep(&numbers);
    Ok(())
}
