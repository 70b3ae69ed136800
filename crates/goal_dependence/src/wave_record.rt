// Firings before a wave and those of the wave, as one record.
ghost use Rattle.std.specs.Prelude.{◌≡◌, ◌++◌, false, Some, IfSome, slice_get, take};
ghost use Rattle.std.specs.Option.{option_copied, option_map};
ghost use Rattle.defs_soar.specs.Explanation.{firing_of};
ghost use Rattle.defs_soar.specs.History.{firing_seen};
ghost use Rattle.soar_record.specs.Recorded.{recorded as kept_in};
ghost use Rattle.goal_dependence.specs.Numbers.{has_number};
ghost use Rattle.goal_dependence.specs.Remembered.{firings_of};

use defs_soar::{Firing, Keeps};
use firing_records::Recorded;
use soar_record::Record;

/// The firings before a wave, and those of the wave, of which one is at hand: none before it has its number.
#[derive(Drop)]
pub struct WithWave<'a> {
    pub past: &'a Record,
    pub wave: &'a [Recorded],
    pub at: usize,
    pub number: u64,
    ghost none_before: { has_number (kept_in past.now ++ firings_of (take at wave.now)) number ≡ false },
}

impl<'a> Keeps for WithWave<'a> {
    ghost kept = { λ k. kept_in k.past.now ++ firings_of k.wave.now };

    fn firing(&self, number: u64) -> Option<&Firing> {
        self.numbered(number)
    }
}

impl<'a> WithWave<'a> {
    /// The firing of a number. The wave is gone through for another one of it than that at hand alone.
    fn numbered(&self, number: u64) -> Option<&Firing>
        ensures { option_map firing_seen (option_copied result) ≡ slice_get (firing_of (kept_in self.now.past.now ++ firings_of self.now.wave.now) number) 0 }
    {
        match self.at_hand(number) {
            Some(firing) => Some(firing),
            None => self.found(number),
        }
    }

    /// The firing at hand, where it has this number.
    fn at_hand(&self, number: u64) -> Option<&Firing>
        ensures { IfSome result (λ firing. Some (firing_seen firing.now) ≡ slice_get (firing_of (kept_in self.now.past.now ++ firings_of self.now.wave.now) number) 0) }
    {
        if self.number != number {
            return None;
        }
        match self.wave.get(self.at) {
            Some(recorded) if recorded.firing.number == number => Some(&*recorded.firing),
            _ => None,
        }
    }

    #[tactic(auto, using(crate::proofs::RecordLemmas::found_past, crate::proofs::RecordLemmas::found_more))]
    fn found(&self, number: u64) -> Option<&Firing>
        ensures { option_map firing_seen (option_copied result) ≡ slice_get (firing_of (kept_in self.now.past.now ++ firings_of self.now.wave.now) number) 0 }
    {
        match self.past.firing(number) {
            Some(firing) => Some(firing),
            None => in_wave(self.wave, number),
        }
    }
}

/// The first firing of a number.
fn in_wave(wave: &[Recorded], number: u64) -> Option<&Firing>
    ensures { option_map firing_seen (option_copied result) ≡ slice_get (firing_of (firings_of wave.now) number) 0 }
{
    'wave: for recorded in wave {
        if recorded.firing.number == number {
            return Some(&*recorded.firing);
        }
    }
    None
}
