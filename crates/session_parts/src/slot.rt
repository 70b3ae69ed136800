ghost use Rattle.std.specs.Prelude.{◌≡◌};
ghost use Rattle.defs_soar.specs.Goals.{plain_triple};

use soar_sym::{Sym, Triple};

/// An attribute of an identifier.
#[derive(Clone, Copy)]
pub struct Slot {
    pub id: Sym,
    pub attr: Sym,
}

impl Slot {
    /// The triple with a value, which is not acceptable.
    pub fn with(self, value: Sym) -> Triple
        ensures { result ≡ plain_triple self.id self.attr value }
    {
        Triple {
            id: self.id,
            attr: self.attr,
            value,
            accept: false,
        }
    }
}
