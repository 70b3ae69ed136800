//! Laws of records of firings: what a part of the history is enough for.
#![tactic(auto)]

ghost use Rattle.record_laws.specs.Closed as closed;
ghost use Rattle.record_laws.specs.Joining as joining;
ghost use Rattle.record_laws.specs.Reading as reading;
ghost use Rattle.record_laws.specs.Walking as walking;

/// A record that has the makers of what its firings used has all that roots in it reach.
pub fn records_have_makers()
    ensures roots { closed.RecordedRootsSuffice }
    ensures recorded { closed.RootsAreRecorded }
    ensures reached { closed.ReachedHaveMakers }
{}

/// With such a part in the place of its history an agent is lawful, and it learns from a wave what
/// it does with the whole.
pub fn learning_reads_records()
    ensures lawful { reading.LawfulByRecord }
    ensures learning { reading.LearningByRecord }
{}

/// The firings of a wave join the record, and each history of which it is a part.
pub fn waves_join_each_record()
    ensures later { joining.LaterJoin }
    ensures waves { joining.WavesLeaveRecord }
{}

/// The selections that a decision leaves rest on firings that were roots before it.
pub fn walks_name_roots()
    ensures selections { walking.WalksNameRoots }
{}
