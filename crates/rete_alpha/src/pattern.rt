ghost use Rattle.std.specs.Prelude.{◌≡◌, ◌≤◌, length, Some, None, if◌then◌else◌};
ghost use Rattle.rete_alpha.specs.Taking.{fits, takes, mask, masks, mask_at};

use soar_sym::{Sym, is_symbol};
use soar_wm::Element;

/// The constants of a pattern, and the marks that it asks for.
#[derive(Clone, Copy, PartialEq, Eq, Hash)]
pub struct ConstPattern {
    /// Whether only elements whose identifier is a state are taken.
    pub state: bool,

    /// The identifier, or any.
    pub id: Option<Sym>,

    /// The attribute, or any.
    pub attr: Option<Sym>,

    /// The value, or any.
    pub value: Option<Sym>,

    /// Whether elements with the acceptable mark are taken, or those without it.
    pub accept: bool,
}

/// A symbol, or none.
fn kept(keep: bool, symbol: Sym) -> Option<Sym>
    ensures { result ≡ (if keep then Some symbol else None) }
{
    if keep { Some(symbol) } else { None }
}

/// The pattern that asks for these parts of an element.
fn mask(e: &Element, state: bool, id: bool, attr: bool, value: bool) -> ConstPattern
    ensures { result ≡ mask e.now state id attr value }
{
    ConstPattern {
        state,
        id: kept(id, e.id),
        attr: kept(attr, e.attr),
        value: kept(value, e.value),
        accept: e.accept,
    }
}

/// The mask at a place among all masks of an element. The bits of the place say which parts it asks for.
pub fn mask_at(e: &Element, place: usize) -> ConstPattern
    ensures { result ≡ mask_at e.now place }
{
    mask(
        e,
        place & 8 != 0,
        place & 4 != 0,
        place & 2 != 0,
        place & 1 != 0,
    )
}

/// How many masks an element has: the patterns that take it are among those at the places below.
pub fn mask_count(e: &Element) -> usize
    ensures value { result ≡ length (masks e.now) }
    ensures bound { result ≤ 16 }
{
    if e.of_state { 16 } else { 8 }
}

/// Whether a field's constant is the symbol, or there is none.
fn fits(constant: Option<Sym>, symbol: Sym) -> bool
    ensures { result ≡ fits constant symbol }
{
    match constant {
        Some(constant) => is_symbol(symbol, constant),
        None => true,
    }
}

/// Whether a pattern takes an element.
pub fn takes(p: &ConstPattern, e: &Element) -> bool
    ensures { result ≡ takes p.now e.now }
{
    p.accept == e.accept
        && (!p.state || e.of_state)
        && fits(p.id, e.id)
        && fits(p.attr, e.attr)
        && fits(p.value, e.value)
}
