ghost use Rattle.std.specs.Prelude.{◌≡◌};
ghost use Rattle.soar_read.specs.declared.fault.ReadFault.TheVariants as faults;

use soar_sym::NoMemory;
use std::alloc::{AllocError, AllocFailed};
use thiserror::Error;

/// Why a token is refused.
#[derive(Clone, Copy, Debug, PartialEq, Eq)]
pub enum SyntaxKind {
    /// No production goes on so.
    Unexpected,
    /// Only one with more than 64 brackets open at once goes on so.
    Deep,
}

/// Why tokens were not read as a production.
#[derive(Clone, Copy, Debug, PartialEq, Eq, Error)]
pub enum ReadFault {
    /// The tokens spell no production. The place is the first byte of the first token with which none goes on,
    /// or the end of the last token; 0 without tokens.
    #[error("unexpected token at byte {place}")]
    SyntaxFault { place: u32, kind: SyntaxKind },
    /// The name of a new variable found no word.
    #[error("no word is left")]
    WordsSpent,
    #[error("out of memory")]
    NoMemory,
}

impl From<AllocError> for ReadFault {
    ghost from_gives = { λ _ e. e ≡ faults.NoMemory };

    fn from(_error: AllocError) -> ReadFault {
        ReadFault::NoMemory
    }
}

impl<T: Drop> From<AllocFailed<T>> for ReadFault {
    ghost from_gives = { λ _ e. e ≡ faults.NoMemory };

    fn from(_error: AllocFailed<T>) -> ReadFault {
        ReadFault::NoMemory
    }
}

impl From<NoMemory> for ReadFault {
    ghost from_gives = { λ _ e. e ≡ faults.NoMemory };

    fn from(_error: NoMemory) -> ReadFault {
        ReadFault::NoMemory
    }
}
