// Variables for the atoms that have them.
ghost use Rattle.defs_soar.specs.Candidate.{with_variables};

use crate::variables::Variables;
use condition_copies::Replaces;
use soar_rule::Atom;

/// The variables that are given in a rule: in the general form to identifiers, in both to negations' own variables.
#[derive(Clone, Copy)]
pub struct Given<'a> {
    pub general: bool,
    pub variables: &'a Variables,
}

impl Replaces for Given<'_> {
    ghost replaced = { λ g. with_variables g.general g.variables.now };

    fn atom(&self, atom: Atom) -> Atom {
        self.variables.atom(self.general, atom)
    }
}
