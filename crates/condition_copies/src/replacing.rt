// What stands in a copy in the place of each atom.
ghost use Rattle.std.specs.Prelude.{◌≡◌};
ghost use Rattle.soar_rule.specs.declared.cond.Atom.{Atom as AtomOf};

use soar_rule::Atom;

/// Other atoms for those of a rule.
pub trait Replaces {
    /// The atom in the place of another.
    ghost replaced: { Self → AtomOf → AtomOf };

    /// The atom in the place of this one.
    fn atom(&self, atom: Atom) -> Atom
        ensures { result ≡ replaced self.now atom };
}

/// Each atom stays as it is.
pub(crate) struct AsItStands;

impl Replaces for AsItStands {
    ghost replaced = { λ _ a. a };

    fn atom(&self, atom: Atom) -> Atom {
        atom
    }
}
