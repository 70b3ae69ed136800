// Whether lists are the same.
ghost use Rattle.std.specs.Prelude.{◌≡◌, ◌↔◌, IsTrue};

use soar_sym::{Sym, Triple, is_triple};

/// Whether two lists of triples are one, in the same order.
pub fn is_same_triples(a: &[Triple], b: &[Triple]) -> bool
    ensures { IsTrue result ↔ (a.now ≡ b.now) }
{
    if a.len() != b.len() {
        return false;
    }
    'places: for at in 0..a.len() {
        if !is_same_triple(&a[at], &b[at]) {
            return false;
        }
    }
    true
}

fn is_same_triple(a: &Triple, b: &Triple) -> bool
    ensures { IsTrue result ↔ (a.now ≡ b.now) }
{
    is_triple(*a, *b)
}

/// Whether two lists of symbols are one, in the same order.
pub fn is_same_symbols(a: &[Sym], b: &[Sym]) -> bool
    ensures { IsTrue result ↔ (a.now ≡ b.now) }
{
    if a.len() != b.len() {
        return false;
    }
    'places: for at in 0..a.len() {
        if a[at] != b[at] {
            return false;
        }
    }
    true
}
