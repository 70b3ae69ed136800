ghost use Rattle.std.specs.Prelude.{◌≡◌};
ghost use Rattle.soar_settle.specs.declared.stop.Stop.TheVariants as stops;

use defs_soar::Which;
use soar_sym::NoMemory;
use std::alloc::AllocError;
use thiserror::Error;

/// Why a step did not go through: no memory, or a limit that it would have passed.
#[derive(Clone, Copy, Debug, PartialEq, Eq, Error)]
pub enum Stop {
    #[error("out of memory")]
    NoMemory,
    #[error("a limit is reached")]
    Limit(Which),
}

impl From<NoMemory> for Stop {
    ghost from_gives = { λ _ stop. stop ≡ stops.NoMemory };

    fn from(_error: NoMemory) -> Stop {
        Stop::NoMemory
    }
}

impl From<AllocError> for Stop {
    ghost from_gives = { λ _ stop. stop ≡ stops.NoMemory };

    fn from(_error: AllocError) -> Stop {
        Stop::NoMemory
    }
}
