// The entry of a learned rule's firing.
ghost use Rattle.std.specs.Prelude.{◌≡◌, map, IfOk};
ghost use Rattle.defs_soar.specs.WaveAtHand.{fired, supported_wish};
ghost use Rattle.wave_entries.specs.Entries.{entry_seen, held_seen};
ghost use Rattle.wave_entries.specs.Lessons.{lesson_seen};
ghost use Rattle.wave_entries.specs.Recorded.{recorded_seen};
ghost use Rattle.learned_firings.specs.Firings.{told_as_learned};

use defs_soar::{Goal, Wish, is_operator_slot};
use soar_sym::{List, Text};
use std::alloc::{AllocError, Global};
use wave_entries::{Entry, Fresh, Heading, HeldBy, HeldWish, Lesson, Recorded, Told};

/// A firing of a learned rule, under what was learned, with the preferences that it takes over.
pub fn learned_entry(
    alloc: Global,
    goals: &[Goal],
    recorded: Recorded,
    lesson: Lesson,
) -> Result<Entry, AllocError>
    ensures { IfOk result (λ entry. entry_seen entry ≡ fired (told_as_learned goals.now (recorded_seen recorded) (lesson_seen lesson))) }
{
    let wishes = held_wishes(
        alloc,
        goals,
        recorded.operator_kind,
        recorded.firing.made.as_slice(),
    )?;
    Ok(Entry::Fired(Fresh {
        recorded,
        told: Told {
            heading: Heading::Learns(lesson),
            wishes,
            dropped: List::new(alloc),
            text: Text::new(alloc),
        },
    }))
}

/// The preferences that a firing made, held by their operator or by its instance.
fn held_wishes(
    alloc: Global,
    goals: &[Goal],
    kind: bool,
    made: &[Wish],
) -> Result<List<HeldWish>, AllocError>
    ensures held { IfOk result (λ held. map held_seen held ≡ map (supported_wish goals.now kind) made.now) }
    ensures same { IfOk result (λ held. map (λ h. h.wish) held ≡ made.now) }
{
    let mut held = List::new(alloc);
    'made: for wish in made {
        held.push(held_wish(goals, kind, *wish))?;
    }
    Ok(held)
}

fn held_wish(goals: &[Goal], kind: bool, wish: Wish) -> HeldWish
    ensures held { held_seen result ≡ supported_wish goals.now kind wish }
    ensures same { result.wish ≡ wish }
{
    let by = if kind && !is_operator_slot(goals, wish.id, wish.attr) {
        HeldBy::Operator
    } else {
        HeldBy::Instance
    };
    HeldWish { wish, by }
}
