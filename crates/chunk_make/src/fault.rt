ghost use Rattle.std.specs.Prelude.{◌≡◌};
ghost use Rattle.chunk_make.specs.declared.fault.MakeFault.TheVariants as faults;

use soar_sym::NoMemory;

/// Why there is no candidate.
#[derive(Drop)]
pub enum MakeFault {
    /// A name of a variable is new, and the table is full.
    WordsSpent,
    NoMemory,
}

impl From<NoMemory> for MakeFault {
    ghost from_gives = { λ _ fault. fault ≡ faults.NoMemory };

    fn from(_error: NoMemory) -> MakeFault {
        MakeFault::NoMemory
    }
}
