// The live firings after a wave.
ghost use Rattle.std.specs.Prelude.{◌≡◌, ◌++◌, map, IfOk, OnOk};
ghost use Rattle.defs_soar.specs.Trimming.{numbers_of};
ghost use Rattle.live_firings.specs.Living.{live_seen};
ghost use Rattle.wave_parts.specs.Living.{still_live};

use live_firings::{Live, LiveFirings};
use soar_sym::{List, NoMemory};
use std::alloc::Global;

/// The numbers of firings.
pub fn numbers_of(alloc: Global, firings: &[Live]) -> Result<List<u64>, NoMemory>
    ensures { IfOk result (λ numbers. numbers ≡ numbers_of (map live_seen firings.now)) }
{
    let mut numbers = List::new(alloc);
    'firings: for firing in firings {
        numbers.push(firing.number)?;
    }
    Ok(numbers)
}

/// Takes away the firings that left, and adds those of the wave.
pub fn renew_live(live: &mut LiveFirings, gone: &[u64], fired: List<Live>) -> Result<(), NoMemory>
    ensures list { OnOk result (map live_seen live.new.list ≡ still_live gone.now (map live_seen live.old.list) ++ map live_seen fired) }
    ensures told { live.new.told ≡ live.old.told }
{
    live.drop_numbers(gone);
    append(live, fired)
}

fn append(live: &mut LiveFirings, fired: List<Live>) -> Result<(), NoMemory>
    ensures list { OnOk result (live.new.list ≡ live.old.list ++ fired) }
    ensures told { live.new.told ≡ live.old.told }
{
    'fired: for firing in fired.into_vec() {
        live.push(firing)?;
    }
    Ok(())
}
