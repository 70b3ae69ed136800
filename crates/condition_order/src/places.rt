// The identifiers that have a variable, in the order of their variables.
ghost use Rattle.std.specs.Prelude.{◌≡◌, OnOk};
ghost use Rattle.defs_soar.specs.ConditionOrder.{variable_place, with_place};
ghost use Rattle.defs_soar.specs.Sorted.{has_symbol};

use soar_sym::{NoMemory, Sym, is_identifier, is_symbol};
use soar_wm::Element;

/// The place of an identifier among those that have a variable, from 0.
pub(crate) fn variable_place(places: &[Sym], symbol: Sym) -> Option<usize>
    ensures { result ≡ variable_place places.now symbol }
{
    'places: for (at, other) in places.iter().enumerate() {
        if is_symbol(symbol, *other) {
            return Some(at);
        }
    }
    None
}

/// Gives variables to those fields of an element that are identifiers without one.
pub(crate) fn add_places(places: &mut Vec<Sym>, element: Element) -> Result<(), NoMemory>
    ensures { OnOk result (places.new.items ≡ with_place (with_place (with_place places.old.items element.id) element.attr) element.value) }
{
    add_place(places, element.id)?;
    add_place(places, element.attr)?;
    add_place(places, element.value)?;
    Ok(())
}

fn add_place(places: &mut Vec<Sym>, symbol: Sym) -> Result<(), NoMemory>
    ensures { OnOk result (places.new.items ≡ with_place places.old.items symbol) }
{
    if is_identifier(symbol) && !has_place(places.as_slice(), symbol) {
        places.push(symbol)?;
    }
    Ok(())
}

#[tactic(auto, using(crate::proofs::PlaceLemmas::has_place))]
fn has_place(places: &[Sym], symbol: Sym) -> bool
    ensures { result ≡ has_symbol places.now symbol }
{
    variable_place(places, symbol).is_some()
}
