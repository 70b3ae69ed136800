ghost use Rattle.std.specs.Prelude.{◌≡◌, map};

use defs_match::Instance;
use defs_soar::{Dropped, Wish};
use firing_records::Recorded;
use soar_sym::{List, Sym, Text};
use trace_details::{HeldBy, Lesson};

/// A preference, and how it is held.
#[derive(Clone, Copy)]
pub struct HeldWish {
    pub wish: Wish,
    pub by: HeldBy,
}

/// The line of a firing: by the name of its rule and its instance, or by what was learned where it is a learned rule's.
#[derive(Drop)]
pub enum Heading {
    Fires {
        number: u64,
        name: Sym,
        instance: Instance,
    },
    Learns(Lesson),
}

/// What is told under a line: preferences, the actions that were dropped, and what was written.
#[derive(Drop)]
pub struct Told {
    pub heading: Heading,
    pub wishes: List<HeldWish>,
    pub dropped: List<Dropped>,
    pub text: Text,
}

/// A firing of the wave at hand: as it is recorded, and as it is told. It holds the preferences that it made.
#[derive(Drop)]
pub struct Fresh {
    pub recorded: Recorded,
    pub told: Told,
    ghost same: { map (λ h. h.wish) told.wishes ≡ recorded.firing.made },
}

/// A firing, or what learning told without one.
#[derive(Drop)]
pub enum Entry {
    Fired(Fresh),
    Noted(Lesson),
}
