// Counts, which are at most 2^64 - 1.
ghost use Rattle.std.specs.Prelude.{◌+◌, ◌≤◌};
ghost use Rattle.wave_parts.specs.Counting.{Counts};

use defs_soar::Which;
use soar_settle::Stop;

/// A count after so many more.
pub fn count_more(count: u64, more: u64) -> Result<u64, Stop>
    ensures count { Counts (count + more) result }
    ensures fits { count ≤ 18446744073709551615 }
{
    match count.checked_add(more) {
        Some(sum) => Ok(sum),
        None => Err(Stop::Limit(Which::Counts)),
    }
}
