//! Each chunk that a wave learns goes again, and is there when the wave ends.
#![tactic(auto)]

ghost use Rattle.wave_chunk_laws.specs.Chunks.{LawfulWavesLearnWell};

/// With local negations disallowed, each chunk that a lawful wave learns is checked, matches at its grounds, makes the
/// results again and replays; it and its explanation are there when the wave ends.
pub fn chunks_of_waves_go_again()
    ensures { LawfulWavesLearnWell }
{}
