ghost use Rattle.std.specs.Prelude.{◌≡◌, [], ◌∷◌, suc, IfOk};
ghost use Rattle.defs_soar.specs.Limits.{counts_to};
ghost use Rattle.learned_firings.specs.Totals.{Reaches};

use defs_soar::Which;
use soar_settle::Stop;

/// The next number of a count, up to 2^64 - 1.
#[tactic(auto, using(crate::proofs::NameLemmas::count_within, crate::proofs::NameLemmas::count_over))]
pub fn next_count(last: u64) -> Result<u64, Stop>
    ensures next { IfOk result (λ next. next ≡ suc last) }
    ensures answer { Reaches (counts_to (suc last) ∷ []) result }
{
    match last.checked_add(1) {
        Some(next) => Ok(next),
        None => Err(Stop::Limit(Which::Counts)),
    }
}
