// The chain behind a firing, from the record and the firing itself.
ghost use Rattle.std.specs.Prelude.{◌≡◌, ◌∷◌, ◌++◌, [], map, slice_get, IfOk};
ghost use Rattle.std.specs.Option.{option_copied, option_map};
ghost use Rattle.chunk_back.specs.Makers.{MakersAreEarlier};
ghost use Rattle.defs_soar.specs.Explanation.{chain_of as chain_from, firing_of};
ghost use Rattle.defs_soar.specs.History.{chain_seen, firing_seen};
ghost use Rattle.soar_record.specs.Recorded.{recorded as kept_in};
ghost use Rattle.explained_firings.specs.Explaining.{with_firing};

use crate::results::{roots_of, wishes_of};
use chunk_back::backtrace;
use defs_soar::{Chain, Firing, Keeps, Preference};
use soar_record::Record;
use soar_sym::NoMemory;
use std::alloc::Global;

/// The firings before a wave, and one of the wave.
#[derive(Drop)]
struct WithFiring<'a> {
    past: &'a Record,
    firing: &'a Firing,
}

impl<'a> Keeps for WithFiring<'a> {
    ghost kept = { λ k. with_firing (kept_in k.past.now) (firing_seen k.firing.now) };

    #[tactic(auto, using(crate::proofs::KeptLemmas::found_past, crate::proofs::KeptLemmas::found_own))]
    fn firing(&self, number: u64) -> Option<&Firing> {
        match self.past.firing(number) {
            Some(firing) => Some(firing),
            None => self.own(number),
        }
    }
}

impl<'a> WithFiring<'a> {
    /// The firing of the wave, where it has this number.
    fn own(&self, number: u64) -> Option<&Firing>
        ensures { option_map firing_seen (option_copied result) ≡ slice_get (firing_of (firing_seen self.now.firing.now ∷ []) number) 0 }
    {
        if self.firing.number == number {
            Some(self.firing)
        } else {
            None
        }
    }
}

/// The chain behind the firing and the makers of its results, which are what came of it.
pub(crate) fn chain_of(
    alloc: Global,
    past: &Record,
    firing: &Firing,
    results: &[Preference],
) -> Result<Chain, NoMemory>
    requires new { firing_of (kept_in past.now) firing.now.number ≡ [] }
    requires earlier { MakersAreEarlier (with_firing (kept_in past.now) (firing_seen firing.now)) }
    ensures { IfOk result (λ chain. chain_seen chain ≡ chain_from (with_firing (kept_in past.now) (firing_seen firing.now)) (firing.now.number ∷ map (λ row. row.firing) results.now) (map (λ row. row.wish) results.now)) }
{
    past.numbers_stand_once();
    let kept = WithFiring { past, firing };
    let roots = roots_of(alloc, firing.number, results)?;
    let mut chain = backtrace(alloc, &kept, roots.as_slice())?;
    chain.results = wishes_of(alloc, results)?;
    Ok(chain)
}
