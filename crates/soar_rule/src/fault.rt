ghost use Rattle.std.specs.Prelude.{◌≡◌};
ghost use Rattle.soar_rule.specs.declared.fault.CheckFault.TheVariants as faults;

use soar_sym::NoMemory;
use std::alloc::{AllocError, AllocFailed};
use thiserror::Error;

/// What is wrong with a production. A number stands at 2^32 - 1 where it would be greater.
#[derive(Clone, Copy, Debug, Error)]
pub enum CheckFault {
    /// No positive condition outside negations is marked `state`.
    #[error("no state condition")]
    NoState,
    /// The variable of this number is not bound where it has to be.
    #[error("unbound variable number {0}")]
    Unbound(u32),
    /// No identifier that is bound leads to the condition at this place, from 1. Negations count too.
    #[error("unconnected condition {0}")]
    Unconnected(u32),
    /// So many conditions, more than 1,000, or so many variables, more than 2,000. A conjunctive negation and
    /// each condition inside count as one.
    #[error("too many {0}")]
    TooMany(u32),
    /// Negations, or calls, are more than 8 deep in one another.
    #[error("too deep")]
    TooDeep,
    /// A preference other than `+` and `-` for a constant attribute other than `operator`.
    #[error("preference for an ordinary attribute")]
    BadPref,
    #[error("out of memory")]
    NoMemory,
}

impl From<AllocError> for CheckFault {
    ghost from_gives = { λ _ e. e ≡ faults.NoMemory };

    fn from(_error: AllocError) -> CheckFault {
        CheckFault::NoMemory
    }
}

impl<T: Drop> From<AllocFailed<T>> for CheckFault {
    ghost from_gives = { λ _ e. e ≡ faults.NoMemory };

    fn from(_error: AllocFailed<T>) -> CheckFault {
        CheckFault::NoMemory
    }
}

impl From<NoMemory> for CheckFault {
    ghost from_gives = { λ _ e. e ≡ faults.NoMemory };

    fn from(_error: NoMemory) -> CheckFault {
        CheckFault::NoMemory
    }
}
