ghost use Rattle.std.specs.Prelude.{◌≡◌};
ghost use Rattle.soar_fire.specs.declared.fault.FireFault.TheVariants as fault;

use std::alloc::{AllocError, AllocFailed};
use thiserror::Error;

/// Why a rule could not fire.
#[derive(Clone, Copy, Debug, PartialEq, Eq, Error)]
pub enum FireFault {
    /// A letter has no number left for a new identifier.
    #[error("no identifier is left")]
    IdsSpent,
    /// The table has no room for a new word.
    #[error("no word is left")]
    WordsSpent,
    #[error("out of memory")]
    NoMemory,
}

impl From<AllocError> for FireFault {
    ghost from_gives = { λ _ e. e ≡ fault.NoMemory };

    fn from(_error: AllocError) -> FireFault {
        FireFault::NoMemory
    }
}

impl<T: Drop> From<AllocFailed<T>> for FireFault {
    ghost from_gives = { λ _ e. e ≡ fault.NoMemory };

    fn from(_error: AllocFailed<T>) -> FireFault {
        FireFault::NoMemory
    }
}
