ghost use Rattle.std.specs.Prelude.{◌≡◌, ◌++◌, ◌∷◌, [], flat_map, map, IfOk, OnOk};
ghost use Rattle.defs_soar.specs.Events.{learning};
ghost use Rattle.defs_soar.specs.WaveAtHand.{all_fresh, fired};
ghost use Rattle.defs_soar.specs.Waves.{entry_events, live_of, rows_of_fresh};
ghost use Rattle.firing_records.specs.Recorded.{fresh_seen as fresh_recorded, recorded_seen};
ghost use Rattle.live_firings.specs.Living.{live_seen};
ghost use Rattle.trace_details.specs.Lessons.{lesson_seen};
ghost use Rattle.wave_entries.specs.Entries.{entry_seen, fresh_at_hand, told_events};
ghost use Rattle.wave_entries.specs.Left.{events_left, live_left, recorded_left, rows_left};

use crate::entry::{Entry, Fresh, Heading, Told};
use crate::firing::{add_rows, live_of};
use defs_soar::Preference;
use firing_records::Recorded;
use live_firings::Live;
use soar_sym::{List, NoMemory, Text};
use std::alloc::Global;
use trace_details::Lesson;

/// What the firings of a wave leave: the rows that they hold themselves, the firings as they are live and as they are
/// recorded, and what is told of them and of learning.
#[derive(Drop)]
pub struct WaveMade {
    pub rows: List<Preference>,
    pub live: List<Live>,
    pub recorded: List<Recorded>,
    pub told: List<Told>,
}

/// Takes the entries of a wave apart.
#[tactic(auto, using(crate::proofs::LeftLemmas::all_rows, crate::proofs::LeftLemmas::all_live, crate::proofs::LeftLemmas::all_recorded, crate::proofs::LeftLemmas::all_events))]
pub fn made_of(alloc: Global, entries: List<Entry>) -> Result<WaveMade, NoMemory>
    ensures rows { IfOk result (λ e. e.rows ≡ flat_map rows_of_fresh (all_fresh (map entry_seen entries))) }
    ensures live { IfOk result (λ e. map live_seen e.live ≡ map live_of (all_fresh (map entry_seen entries))) }
    ensures recorded { IfOk result (λ e. map recorded_seen e.recorded ≡ map fresh_recorded (all_fresh (map entry_seen entries))) }
    ensures told { IfOk result (λ e. flat_map told_events e.told ≡ flat_map entry_events (map entry_seen entries)) }
{
    let count = entries.len();
    let mut made = WaveMade {
        rows: List::from_vec(Vec::with_capacity(alloc, count)?),
        live: List::from_vec(Vec::with_capacity(alloc, count)?),
        recorded: List::from_vec(Vec::with_capacity(alloc, count)?),
        told: List::from_vec(Vec::with_capacity(alloc, count)?),
    };
    'entries: for entry in entries.into_vec() {
        add_entry(alloc, &mut made, entry)?;
    }
    Ok(made)
}

/// Adds what an entry leaves.
fn add_entry(alloc: Global, made: &mut WaveMade, entry: Entry) -> Result<(), NoMemory>
    ensures rows { OnOk result (made.new.rows ≡ made.old.rows ++ rows_left entry) }
    ensures live { OnOk result (map live_seen made.new.live ≡ map live_seen made.old.live ++ live_left entry) }
    ensures recorded { OnOk result (map recorded_seen made.new.recorded ≡ map recorded_seen made.old.recorded ++ recorded_left entry) }
    ensures told { OnOk result (flat_map told_events made.new.told ≡ flat_map told_events made.old.told ++ events_left entry) }
{
    match entry {
        Entry::Fired(fresh) => add_firing(alloc, made, fresh),
        Entry::Noted(lesson) => add_lesson(alloc, made, lesson),
    }
}

/// Adds a firing with the rows that it holds itself.
#[tactic(auto, using(crate::proofs::LeftLemmas::rows_held))]
fn add_firing(alloc: Global, made: &mut WaveMade, fresh: Fresh) -> Result<(), NoMemory>
    ensures rows { OnOk result (made.new.rows ≡ made.old.rows ++ rows_of_fresh (fresh_at_hand fresh)) }
    ensures live { OnOk result (map live_seen made.new.live ≡ map live_seen made.old.live ++ live_of (fresh_at_hand fresh) ∷ []) }
    ensures recorded { OnOk result (map recorded_seen made.new.recorded ≡ map recorded_seen made.old.recorded ++ fresh_recorded (fresh_at_hand fresh) ∷ []) }
    ensures told { OnOk result (flat_map told_events made.new.told ≡ flat_map told_events made.old.told ++ entry_events (fired (fresh_at_hand fresh))) }
{
    add_rows(
        &mut made.rows,
        fresh.recorded.firing.number,
        fresh.told.wishes.as_slice(),
    )?;
    made.live.push(live_of(alloc, &fresh.recorded.firing)?)?;
    made.recorded.push(fresh.recorded)?;
    made.told.push(fresh.told)?;
    Ok(())
}

/// Adds what learning told without a firing.
fn add_lesson(alloc: Global, made: &mut WaveMade, lesson: Lesson) -> Result<(), NoMemory>
    ensures rows { OnOk result (made.new.rows ≡ made.old.rows) }
    ensures live { OnOk result (made.new.live ≡ made.old.live) }
    ensures recorded { OnOk result (made.new.recorded ≡ made.old.recorded) }
    ensures told { OnOk result (flat_map told_events made.new.told ≡ flat_map told_events made.old.told ++ learning (lesson_seen lesson) ∷ []) }
{
    made.told.push(Told {
        heading: Heading::Learns(lesson),
        wishes: List::new(alloc),
        dropped: List::new(alloc),
        text: Text::new(alloc),
    })?;
    Ok(())
}
