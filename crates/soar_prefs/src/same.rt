// Tests of wishes.
ghost use Rattle.std.specs.Prelude.{◌≡◌};
ghost use Rattle.defs_soar.specs.Values.{referent_eq, wish_eq};

use defs_soar::Wish;
use soar_sym::{Sym, is_symbol};

/// Whether two wishes are one.
pub fn is_wish(a: Wish, b: Wish) -> bool
    ensures { result ≡ wish_eq a b }
{
    is_symbol(a.id, b.id)
        && is_symbol(a.attr, b.attr)
        && is_symbol(a.value, b.value)
        && a.kind.is(b.kind)
        && is_referent(a.referent, b.referent)
}

fn is_referent(a: Option<Sym>, b: Option<Sym>) -> bool
    ensures { result ≡ referent_eq a b }
{
    match (a, b) {
        (None, None) => true,
        (Some(referent), Some(other)) => is_symbol(referent, other),
        _ => false,
    }
}
