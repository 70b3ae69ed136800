ghost use Rattle.std.specs.Prelude.{◌≡◌};
ghost use Rattle.soar_cycle.specs.Agents.{standing_after, stop_of};

use cycle_phases::Stop;
use defs_soar::Which;

/// Whether an agent stands for a state of the definitions.
#[derive(Clone, Copy, PartialEq, Eq)]
pub enum Standing {
    /// It does.
    Stands,

    /// Memory was refused, and it answers that from then on.
    OutOfMemory,

    /// A step would have passed a limit, and it answers that from then on.
    PastLimit(Which),
}

impl Standing {
    /// What an agent answers that stands for no state.
    pub fn stop(self) -> Option<Stop>
        ensures { result ≡ stop_of self }
    {
        match self {
            Standing::Stands => None,
            Standing::OutOfMemory => Some(Stop::NoMemory),
            Standing::PastLimit(limit) => Some(Stop::Limit(limit)),
        }
    }
}

/// What an answer leaves.
pub fn standing_after<T>(standing: Standing, answer: &Result<T, Stop>) -> Standing
    ensures { result ≡ standing_after standing answer.now }
{
    match answer {
        Ok(_) => standing,
        Err(Stop::NoMemory) => Standing::OutOfMemory,
        Err(Stop::Limit(limit)) => Standing::PastLimit(*limit),
    }
}
