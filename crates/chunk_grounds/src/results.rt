// The first identifier of results that would need a variable. What the chain made needs none where results lead to it.
ghost use Rattle.std.specs.Prelude.{◌≡◌, [], ◌∷◌, filter, if◌then◌else◌, not, Some, None};
ghost use Rattle.defs_soar.specs.ChainIdentifiers.{is_made_by};
ghost use Rattle.defs_soar.specs.History.{chain_seen};
ghost use Rattle.defs_soar.specs.Results.{named_by};
ghost use Rattle.defs_soar.specs.Sorted.{has_symbol};
ghost use Rattle.defs_soar.specs.Ungrounded.{first_without, wrong_in_wish, wrong_in_wishes};

use crate::unplaced::{first_without, is_unplaced};
use chain_identifiers::{Identifiers, is_among};
use defs_soar::Wish;
use soar_sym::Sym;

/// The first of the wishes' identifiers that is wrong; results lead to those of `led`.
pub(crate) fn first_in_wishes(
    told: &Identifiers<'_>,
    places: &[Sym],
    led: &[Sym],
    wishes: &[Wish],
) -> Option<Sym>
    ensures { result ≡ wrong_in_wishes (chain_seen told.now.chain.now) places.now led.now wishes.now }
{
    'wishes: for wish in wishes {
        if let Some(symbol) = first_in_wish(told, places, led, wish) {
            return Some(symbol);
        }
    }
    None
}

fn first_in_wish(told: &Identifiers<'_>, places: &[Sym], led: &[Sym], wish: &Wish) -> Option<Sym>
    ensures { result ≡ wrong_in_wish (chain_seen told.now.chain.now) places.now led.now wish.now }
{
    if let Some(symbol) = first_as_identifier(told, places, led, wish.id) {
        return Some(symbol);
    }
    if let Some(symbol) = first_without(places, &[wish.attr]) {
        return Some(symbol);
    }
    first_named(told, places, wish)
}

/// The identifier of a wish, where it is wrong.
fn first_as_identifier(
    told: &Identifiers<'_>,
    places: &[Sym],
    led: &[Sym],
    symbol: Sym,
) -> Option<Sym>
    ensures { result ≡ (if is_made_by (chain_seen told.now.chain.now) symbol then (if has_symbol led.now symbol then None else Some symbol)
        else first_without places.now (symbol ∷ [])) }
{
    if !told.is_made(symbol) {
        return first_without(places, &[symbol]);
    }
    if is_among(led, symbol) {
        return None;
    }
    Some(symbol)
}

/// The first of a wish's value and referent that is wrong.
fn first_named(told: &Identifiers<'_>, places: &[Sym], wish: &Wish) -> Option<Sym>
    ensures { result ≡ first_without places.now (filter (λ s. not (is_made_by (chain_seen told.now.chain.now) s)) (named_by wish.now)) }
{
    match wish.referent {
        Some(referent) => first_not_made(told, places, &[wish.value, referent]),
        None => first_not_made(told, places, &[wish.value]),
    }
}

fn first_not_made(told: &Identifiers<'_>, places: &[Sym], symbols: &[Sym]) -> Option<Sym>
    ensures { result ≡ first_without places.now (filter (λ s. not (is_made_by (chain_seen told.now.chain.now) s)) symbols.now) }
{
    'symbols: for symbol in symbols {
        if !told.is_made(*symbol) && is_unplaced(places, *symbol) {
            return Some(*symbol);
        }
    }
    None
}
