ghost use Rattle.std.specs.Prelude.{◌≡◌};
ghost use Rattle.soar_cycle.specs.Agents.{standing_after};

use soar_cycle::{Standing, Stop};

/// What an answer leaves.
pub fn standing_after<T>(standing: Standing, answer: &Result<T, Stop>) -> Standing
    ensures { result ≡ standing_after standing answer.now }
{
    match answer {
        Ok(_) => standing,
        Err(Stop::NoMemory) => Standing::OutOfMemory,
        Err(Stop::Limit(limit)) => Standing::PastLimit(*limit),
    }
}
