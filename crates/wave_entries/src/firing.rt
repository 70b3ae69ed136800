// A firing of the wave as it is live, and the rows that it holds itself.
ghost use Rattle.std.specs.Prelude.{◌≡◌, ◌++◌, flat_map, IfOk, OnOk};
ghost use Rattle.defs_soar.specs.History.{firing_seen};
ghost use Rattle.live_firings.specs.Living.{live_seen};
ghost use Rattle.wave_entries.specs.Left.{live_as, row_held};

use crate::entry::HeldWish;
use defs_match::Instance;
use defs_soar::{Firing, Preference};
use live_firings::Live;
use soar_sym::List;
use std::alloc::{AllocError, Global};
use trace_details::HeldBy;

/// Adds the rows of these preferences, but not of those that went over to a learned firing (Soar manual, chapter 4,
/// chunking).
pub fn add_rows(
    rows: &mut List<Preference>,
    number: u64,
    wishes: &[HeldWish],
) -> Result<(), AllocError>
    ensures { OnOk result (rows.new ≡ rows.old ++ flat_map (row_held number) wishes.now) }
{
    'wishes: for held in wishes {
        add_row(rows, number, *held)?;
    }
    Ok(())
}

fn add_row(rows: &mut List<Preference>, number: u64, held: HeldWish) -> Result<(), AllocError>
    ensures { OnOk result (rows.new ≡ rows.old ++ row_held number held) }
{
    let operator_support = match held.by {
        HeldBy::Instance => false,
        HeldBy::Operator => true,
        HeldBy::Learned => return Ok(()),
    };
    rows.push(Preference {
        firing: number,
        wish: held.wish,
        operator_support,
    })
}

/// The firing as it is live.
pub fn live_of(alloc: Global, firing: &Firing) -> Result<Live, AllocError>
    ensures { IfOk result (λ live. live_seen live ≡ live_as (firing_seen firing.now)) }
{
    Ok(Live {
        number: firing.number,
        name: firing.name,
        depth: firing.depth as usize,
        instance: copy_of(alloc, &firing.instance)?,
    })
}

fn copy_of(alloc: Global, instance: &Instance) -> Result<Instance, AllocError>
    ensures { IfOk result (λ copy. copy ≡ instance.now) }
{
    Ok(Instance {
        rule: instance.rule,
        tags: List::from_slice(alloc, instance.tags.as_slice())?,
        binds: List::from_slice(alloc, instance.binds.as_slice())?,
    })
}
