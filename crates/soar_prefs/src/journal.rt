// What came and went.
ghost use Rattle.std.specs.Prelude.{◌≡◌, ◌+◌, ◌<◌, [], ◌∷◌, ◌++◌, IfOk, map, vec_len, vec_capacity};
ghost use Rattle.soar_prefs.specs.Store.{event_of, plain, row_of};

use crate::event::Event;
use defs_soar::Preference;
use soar_sym::{List, NoMemory, Triple};
use std::alloc::Global;

/// Notes that a row came or went. It takes no memory: there is room.
pub fn append(journal: &mut Vec<Event>, number: u64, row: Preference, came: bool)
    requires { vec_len journal.old < vec_capacity journal.old }
    ensures items { journal.new.items ≡ journal.old.items ++ event_of number row came ∷ [] }
    ensures len { vec_len journal.new ≡ vec_len journal.old + 1 }
    ensures capacity { vec_capacity journal.new ≡ vec_capacity journal.old }
{
    journal.push_reserved(event_of(number, row, came));
}

fn event_of(number: u64, row: Preference, came: bool) -> Event
    ensures { result ≡ event_of number row came }
{
    Event {
        number,
        firing: row.firing,
        id: row.wish.id,
        attr: row.wish.attr,
        value: row.wish.value,
        referent: row.wish.referent,
        kind: row.wish.kind,
        operator_support: row.operator_support,
        came,
    }
}

/// The triples of the rows that came or went.
pub fn triples(alloc: Global, events: &[Event]) -> Result<List<Triple>, NoMemory>
    ensures { IfOk result (λ triples. triples ≡ map (λ event. plain (row_of event)) events.now) }
{
    let mut triples = List::from_vec(Vec::with_capacity(alloc, events.len())?);
    'events: for event in events {
        triples.push(Triple {
            id: event.id,
            attr: event.attr,
            value: event.value,
            accept: false,
        })?;
    }
    Ok(triples)
}
