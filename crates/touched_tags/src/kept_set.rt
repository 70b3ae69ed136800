ghost use Rattle.std.specs.Prelude.{◌≡◌, List};
ghost use Rattle.soar_sym.specs.declared.symbol.Triple.{Triple as TripleOf};
ghost use Rattle.defs_soar.specs.Values.{has_triple_among};

use kept_triples::Kept;
use soar_sym::Triple;

/// Which triples are kept, as far as it is asked.
pub trait KeptSet {
    /// The triples that are kept.
    ghost triples: { Self → List TripleOf };

    /// Whether a triple is kept.
    fn has(&self, triple: Triple) -> bool
        ensures { result ≡ has_triple_among (triples self.now) triple };
}

impl KeptSet for Kept {
    ghost triples = { λ k. k.triples };

    fn has(&self, triple: Triple) -> bool {
        Kept::has(self, triple)
    }
}
