// A triple in 32 bytes.
ghost use Rattle.std.specs.Prelude.{◌≡◌};
ghost use Rattle.std.specs.Cmp.{partial_equiv_from_equiv};
ghost use Rattle.soar_sym.specs.Equality.{triple_eq};
ghost use Rattle.packed_triples.specs.Laws.{same_writes, triple_equivalence, triple_writes};

use crate::symbol::{Kind, is_same, kind_of, number_of, symbol_at};
use soar_sym::Triple;
use std::hash::{Hash, Hasher};
use std::marker::Model;

/// A triple in 32 bytes: each symbol is a number with its kind. In a hash table it stands beside
/// the triple with the other mark, so that who asks for both looks at one place.
#[derive(Clone, Copy)]
pub struct PackedTriple {
    id: i64,
    attr: i64,
    value: i64,
    accept: bool,
    id_kind: Kind,
    attr_kind: Kind,
    value_kind: Kind,
}

const _: () = prove!(size_of::<PackedTriple>() == 32);

impl Model for PackedTriple {
    ghost use Rattle.soar_sym.specs.contracts.symbol.Triple as triple;
    ghost use Rattle.soar_sym.specs.declared.symbol.Triple.{Triple as TripleOf};
    ghost use Rattle.packed_triples.specs.Packed.{IsExact, kind_exact, kind_of, number_of, symbol_at, triple_with};

    ghost Value = { TripleOf };

    ghost coded = { triple.the_row.coded };

    ghost view = { λ p. triple_with (symbol_at p.id_kind p.id) (symbol_at p.attr_kind p.attr) (symbol_at p.value_kind p.value) p.accept };

    ghost invariant = { λ p. IsExact p.id_kind p.id × IsExact p.attr_kind p.attr × IsExact p.value_kind p.value };

    ghost inverse = { λ t. record {
      id = number_of t.id;
      attr = number_of t.attr;
      value = number_of t.value;
      accept = t.accept;
      id_kind = kind_of t.id;
      attr_kind = kind_of t.attr;
      value_kind = kind_of t.value;
    } };

    ghost inverse_ok = { λ p exact i. record {
      id = exact.0 i;
      attr = exact.1 i;
      value = exact.2 i;
      accept = p.accept;
      id_kind = kind_exact p.id_kind p.id i;
      attr_kind = kind_exact p.attr_kind p.attr i;
      value_kind = kind_exact p.value_kind p.value i;
    } };
}

impl PackedTriple {
    /// The triple, packed.
    pub fn new(triple: Triple) -> PackedTriple
        ensures { result ≡ triple }
    {
        PackedTriple {
            id: number_of(triple.id),
            attr: number_of(triple.attr),
            value: number_of(triple.value),
            accept: triple.accept,
            id_kind: kind_of(triple.id),
            attr_kind: kind_of(triple.attr),
            value_kind: kind_of(triple.value),
        }
    }

    /// The triple itself.
    pub fn triple(&self) -> Triple
        ensures { result ≡ self.now }
    {
        Triple {
            id: symbol_at(self.id_kind, self.id),
            attr: symbol_at(self.attr_kind, self.attr),
            value: symbol_at(self.value_kind, self.value),
            accept: self.accept,
        }
    }
}

impl PartialEq for PackedTriple {
    ghost eq = { λ x y. triple_eq x y };

    ghost laws = { partial_equiv_from_equiv triple_equivalence };

    fn eq(&self, other: &PackedTriple) -> bool {
        is_same(self.id_kind, self.id, other.id_kind, other.id)
            && is_same(self.attr_kind, self.attr, other.attr_kind, other.attr)
            && is_same(self.value_kind, self.value, other.value_kind, other.value)
            && self.accept == other.accept
    }
}

impl Eq for PackedTriple {
    ghost laws = { triple_equivalence };
}

impl Hash for PackedTriple {
    ghost hash_input = { λ p. triple_writes p };

    ghost respects_eq = { same_writes };

    fn hash<H: Hasher>(&self, state: &mut H) {
        (self.id, self.attr, self.value, self.attr).hash(state);
    }
}
