use std::alloc::{AllocError, AllocFailed};

/// Why reading stops: memory was refused, or a token does not fit. The number counts the tokens from that one on.
#[derive(Clone, Copy)]
pub enum Stop {
    NoMemory,
    /// No production goes on so.
    Unexpected(usize),
    /// Only one with more brackets than may be open goes on so.
    Deep(usize),
}

impl From<AllocError> for Stop {
    ghost use Rattle.std.specs.Prelude.{◌≡◌};
    ghost use Rattle.tree_parts.specs.declared.stop.Stop.TheVariants as stops;

    ghost from_gives = { λ _ e. e ≡ stops.NoMemory };

    fn from(_error: AllocError) -> Stop {
        Stop::NoMemory
    }
}

impl<T: Drop> From<AllocFailed<T>> for Stop {
    ghost use Rattle.std.specs.Prelude.{◌≡◌};
    ghost use Rattle.tree_parts.specs.declared.stop.Stop.TheVariants as stops;

    ghost from_gives = { λ _ e. e ≡ stops.NoMemory };

    fn from(_error: AllocFailed<T>) -> Stop {
        Stop::NoMemory
    }
}
