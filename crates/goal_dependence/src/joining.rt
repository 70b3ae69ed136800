// Firings that join the record.
ghost use Rattle.std.specs.Prelude.{◌≡◌, ◌++◌, OnOk};
ghost use Rattle.soar_record.specs.Recorded.{recorded as kept_in};
ghost use Rattle.goal_dependence.specs.Remembered.{firings_of, CanJoin};

use firing_records::Recorded;
use soar_record::Record;
use soar_sym::{List, NoMemory};

/// Adds firings to the record, in turn.
pub fn join(kept: &mut Record, recorded: List<Recorded>) -> Result<(), NoMemory>
    requires new { CanJoin (kept_in kept.old) (firings_of recorded) }
    ensures { OnOk result (kept_in kept.new ≡ kept_in kept.old ++ firings_of recorded) }
{
    'recorded: for firing in recorded.into_vec() {
        kept.add(firing.firing)?;
    }
    Ok(())
}
