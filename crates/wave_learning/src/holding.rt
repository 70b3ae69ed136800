// How the preferences of an explained firing are held.
ghost use Rattle.std.specs.Prelude.{◌≡◌, ◌++◌, ◌∷◌, [], true, map, IfOk, OnOk};
ghost use Rattle.learned_firings.specs.Flags.{with_flags};
ghost use Rattle.trace_details.specs.Details.{support_of};
ghost use Rattle.wave_entries.specs.Entries.{entry_seen};
ghost use Rattle.wave_learning.specs.Rising.{AreRising, has_number};

use crate::firings::has_number;
use learned_firings::hold_flagged;
use soar_sym::{List, NoMemory};
use std::alloc::Global;
use std::mem::replace;
use trace_details::HeldBy;
use wave_entries::Entry;

/// Adds an entry, and holds the flagged preferences of the firing of a number, which is at the place, in this way.
pub(crate) fn add_entry(
    alloc: Global,
    entries: &mut List<Entry>,
    place: usize,
    number: u64,
    flags: &[bool],
    by: HeldBy,
    entry: Entry,
) -> Result<(), NoMemory>
    requires { AreRising (map entry_seen entries.old) }
    ensures { OnOk result (map entry_seen entries.new ≡ map (with_flags number flags.now (support_of by)) (map entry_seen entries.old) ++ entry_seen entry ∷ []) }
{
    let mut all = replace(entries, List::new(alloc)).into_vec();
    let entry = hold_at(alloc, &mut all, place, number, flags, by, entry)?;
    let mut held = List::from_vec(all);
    held.push(entry)?;
    *entries = held;
    Ok(())
}

/// Holds the flagged preferences of the firing in this way, while the spare entry takes its place.
fn hold_at(
    alloc: Global,
    all: &mut Vec<Entry>,
    place: usize,
    number: u64,
    flags: &[bool],
    by: HeldBy,
    spare: Entry,
) -> Result<Entry, NoMemory>
    requires { AreRising (map entry_seen all.old.items) }
    ensures held { OnOk result (map entry_seen all.new.items ≡ map (with_flags number flags.now (support_of by)) (map entry_seen all.old.items)) }
    ensures spare { IfOk result (λ it. it ≡ spare) }
{
    match all.get_mut(place) {
        Some(slot) => hold_in(alloc, slot, number, flags, by, spare),
        None => Err(NoMemory),
    }
}

fn hold_in(
    alloc: Global,
    slot: &mut Entry,
    number: u64,
    flags: &[bool],
    by: HeldBy,
    spare: Entry,
) -> Result<Entry, NoMemory>
    ensures number { OnOk result (has_number number (entry_seen slot.old) ≡ true) }
    ensures held { OnOk result (entry_seen slot.new ≡ with_flags number flags.now (support_of by) (entry_seen slot.old)) }
    ensures spare { IfOk result (λ it. it ≡ spare) }
{
    if !has_number(slot, number) {
        return Err(NoMemory);
    }
    let old = replace(slot, spare);
    let held = held_entry(alloc, old, number, flags, by)?;
    Ok(replace(slot, held))
}

fn held_entry(
    alloc: Global,
    entry: Entry,
    number: u64,
    flags: &[bool],
    by: HeldBy,
) -> Result<Entry, NoMemory>
    ensures { IfOk result (λ held. entry_seen held ≡ with_flags number flags.now (support_of by) (entry_seen entry)) }
{
    let mut one = List::new(alloc);
    one.push(entry)?;
    let mut held = hold_flagged(alloc, one, number, flags, by)?;
    match held.pop() {
        Some(held) => Ok(held),
        None => Err(NoMemory),
    }
}
