// Identifiers that are new in a firing.
ghost use Rattle.std.specs.Prelude.{◌≡◌, flat_map};
ghost use Rattle.defs_soar.specs.Dependencies as meaning;
ghost use Rattle.defs_soar.specs.History.{firing_seen};
ghost use Rattle.defs_soar.specs.Sorted.{has_symbol};

use crate::constants::{has_constant, is_among};
use defs_soar::{Firing, Wish};
use soar_sym::{Sym, is_identifier, is_symbol};

/// Whether an identifier stands in what the firing made, but neither in its bindings nor as a constant in its rule.
pub fn is_new_in(firing: &Firing, id: Sym) -> bool
    ensures { result ≡ meaning.is_new_in (firing_seen firing.now) id }
{
    is_identifier(id)
        && is_in_wishes(firing.made.as_slice(), id)
        && !is_among(firing.instance.binds.as_slice(), id)
        && !has_constant(&firing.rule.production, id)
}

#[tactic(auto, using(crate::proofs::ConstantLemmas::has_in_both))]
fn is_in_wishes(wishes: &[Wish], symbol: Sym) -> bool
    ensures { result ≡ has_symbol (flat_map meaning.symbols_of_wish wishes.now) symbol }
{
    'wishes: for wish in wishes {
        if is_in_wish(wish, symbol) {
            return true;
        }
    }
    false
}

fn is_in_wish(wish: &Wish, symbol: Sym) -> bool
    ensures { result ≡ has_symbol (meaning.symbols_of_wish wish.now) symbol }
{
    is_symbol(symbol, wish.id)
        || is_symbol(symbol, wish.attr)
        || is_symbol(symbol, wish.value)
        || is_referent(wish.referent, symbol)
}

fn is_referent(referent: Option<Sym>, symbol: Sym) -> bool
    ensures { result ≡ has_symbol (meaning.symbols_of_referent referent) symbol }
{
    match referent {
        Some(referent) => is_symbol(symbol, referent),
        None => false,
    }
}
