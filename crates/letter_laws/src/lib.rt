//! Identifiers that were given stay given.
#![tactic(auto)]

ghost use Rattle.letter_laws.specs.Grows as grows;

/// No step takes an identifier back: the last number of each letter stays or rises.
pub fn letters_grow()
    ensures identifiers { grows.IdentifiersGrow }
    ensures settling { grows.SettlingGivesNone }
    ensures wave { grows.WavesGrow }
    ensures decision { grows.DecisionsGrow }
    ensures cycle { grows.CyclesGrow }
    ensures given { grows.GivenStayGiven }
{}
