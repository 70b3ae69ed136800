// Symbols in the places of bound variables.
ghost use Rattle.defs_soar.specs.Negations.{bound_atom};

use chain_identifiers::symbol_of;
use condition_copies::Replaces;
use soar_rule::Atom;
use soar_sym::Sym;

/// What bound variables stand for.
#[derive(Drop)]
pub(crate) struct Bound<'a> {
    pub(crate) bindings: &'a [(u32, Sym)],
}

impl Replaces for Bound<'_> {
    ghost replaced = { λ bound. bound_atom bound.bindings.now };

    fn atom(&self, atom: Atom) -> Atom {
        match atom {
            Atom::Const(_) => atom,
            Atom::Var(variable) => match symbol_of(self.bindings, variable) {
                Some(symbol) => Atom::Const(symbol),
                None => atom,
            },
        }
    }
}
