// Numbers that wait to be looked at.
ghost use Rattle.std.specs.Prelude.{◌≡◌, ◌<◌, ◌∷◌, ◌++◌, [], ℕ, IfNone, IfSome, OnOk};
ghost use Rattle.defs_soar.specs.Explanation.{with_number};
ghost use Rattle.defs_soar.specs.Laws.{IsIn};

use soar_sym::NoMemory;
use std::alloc::Global;
use std::collections::BTreeSet;
use std::marker::Model;

/// Numbers in order, each once.
#[derive(Drop)]
pub(crate) struct Waiting {
    numbers: BTreeSet<u64>,
}

impl Model for Waiting {
    ghost use Rattle.std.specs.Prelude.{List as ListOf, ℕ};

    ghost Value = { ListOf ℕ };

    ghost view = { λ w. w.numbers.keys };
}

impl Waiting {
    /// None waits.
    pub(crate) fn new(alloc: Global) -> Waiting
        ensures { result ≡ [] }
    {
        Waiting {
            numbers: BTreeSet::new(alloc),
        }
    }

    /// Lets a number wait.
    pub(crate) fn add(&mut self, number: u64) -> Result<(), NoMemory>
        ensures { OnOk result (self.new ≡ with_number number self.old) }
    {
        self.numbers.insert(number)?;
        Ok(())
    }

    /// The numbers as a plain set.
    pub(crate) fn into_set(self) -> BTreeSet<u64>
        ensures { result.keys ≡ self }
    {
        self.numbers
    }

    /// Takes the greatest number out.
    pub(crate) fn take_greatest(&mut self) -> Option<u64>
        ensures none { IfNone result (self.old ≡ []) }
        ensures taken { IfSome result (λ number. self.old ≡ self.new ++ number ∷ []) }
        ensures greatest { IfSome result (λ number. (n : ℕ) → IsIn n self.new → n < number) }
    {
        self.numbers.pop_last()
    }
}
