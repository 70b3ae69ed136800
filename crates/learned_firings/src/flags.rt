// How the preferences of a firing are held, where some of them go over to what is learned.
ghost use Rattle.std.specs.Prelude.{◌≡◌, map, IfOk};
ghost use Rattle.wave_entries.specs.Details.{support_of};
ghost use Rattle.wave_entries.specs.Entries.{entry_seen, fresh_at_hand, held_seen};
ghost use Rattle.learned_firings.specs.Flags.{flagged, held_if, first_flag, flags_behind, with_flags, with_flags_held};

use soar_sym::List;
use std::alloc::{AllocError, Global};
use wave_entries::{Entry, Fresh, HeldBy, HeldWish, Told};

/// The entries, with the flagged preferences of the firing of a number held in this way.
pub fn hold_flagged(
    alloc: Global,
    entries: List<Entry>,
    number: u64,
    flags: &[bool],
    by: HeldBy,
) -> Result<List<Entry>, AllocError>
    ensures { IfOk result (λ held. map entry_seen held ≡ map (with_flags number flags.now (support_of by)) (map entry_seen entries)) }
{
    let mut held = List::new(alloc);
    'entries: for entry in entries.into_vec() {
        held.push(hold_in(alloc, entry, number, flags, by)?)?;
    }
    Ok(held)
}

fn hold_in(
    alloc: Global,
    entry: Entry,
    number: u64,
    flags: &[bool],
    by: HeldBy,
) -> Result<Entry, AllocError>
    ensures { IfOk result (λ held. entry_seen held ≡ with_flags number flags.now (support_of by) (entry_seen entry)) }
{
    match entry {
        Entry::Fired(fresh) => {
            if fresh.recorded.firing.number == number {
                Ok(Entry::Fired(hold_of(alloc, fresh, flags, by)?))
            } else {
                Ok(Entry::Fired(fresh))
            }
        }
        Entry::Noted(lesson) => Ok(Entry::Noted(lesson)),
    }
}

fn hold_of(alloc: Global, fresh: Fresh, flags: &[bool], by: HeldBy) -> Result<Fresh, AllocError>
    ensures { IfOk result (λ held. fresh_at_hand held ≡ with_flags_held flags.now (support_of by) (fresh_at_hand fresh)) }
{
    let Fresh { recorded, told } = fresh;
    let Told {
        heading,
        wishes,
        dropped,
        text,
    } = told;
    let wishes = held_wishes(alloc, wishes.as_slice(), flags, by)?;
    Ok(Fresh {
        recorded,
        told: Told {
            heading,
            wishes,
            dropped,
            text,
        },
    })
}

fn held_wishes(
    alloc: Global,
    wishes: &[HeldWish],
    flags: &[bool],
    by: HeldBy,
) -> Result<List<HeldWish>, AllocError>
    ensures held { IfOk result (λ held. map held_seen held ≡ flagged flags.now (support_of by) (map held_seen wishes.now)) }
    ensures same { IfOk result (λ held. map (λ h. h.wish) held ≡ map (λ h. h.wish) wishes.now) }
{
    let mut held = List::new(alloc);
    let mut rest = flags;
    'wishes: for wish in wishes {
        held.push(held_if(first_flag(rest), by, *wish))?;
        rest = flags_behind(rest);
    }
    Ok(held)
}

fn held_if(flag: bool, by: HeldBy, held: HeldWish) -> HeldWish
    ensures held { held_seen result ≡ held_if flag (support_of by) (held_seen held) }
    ensures same { result.wish ≡ held.wish }
{
    if flag {
        HeldWish {
            wish: held.wish,
            by,
        }
    } else {
        held
    }
}

fn first_flag(flags: &[bool]) -> bool
    ensures { result ≡ first_flag flags.now }
{
    match flags.split_first() {
        Some((flag, _)) => *flag,
        None => false,
    }
}

fn flags_behind(flags: &[bool]) -> &[bool]
    ensures { result.now ≡ flags_behind flags.now }
{
    match flags.split_first() {
        Some((_, rest)) => rest,
        None => flags,
    }
}
