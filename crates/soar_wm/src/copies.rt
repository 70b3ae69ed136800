// Elements under the keys of maps, and copies of many.
ghost use Rattle.std.specs.Prelude.{◌≡◌, IfOk, OnOk, filter_map};
ghost use Rattle.std.specs.BTreeMap.{IsOrdered};
ghost use Rattle.slab.specs.Slab.{get};
ghost use Rattle.soar_wm.specs.Shelf.{at_tag, cell_of, id_cmp, of_place, of_symbol, place_of};

use crate::element::Element;
use crate::packed::PackedElement;
use crate::place::{Place, place_of};
use slab::Slab;
use soar_sym::{List, NoMemory, Sym, is_symbol};
use std::alloc::Global;
use std::collections::BTreeMap;

/// The element under a key.
fn under_key(cells: &Slab<PackedElement>, key: usize) -> Option<Element>
    ensures { result ≡ get cells.now key }
{
    match cells.get(key) {
        Some(packed) => Some(packed.element()),
        None => None,
    }
}

/// The element of a tag.
pub fn at_tag(cells: &Slab<PackedElement>, tags: &BTreeMap<u32, usize>, tag: u32) -> Option<Element>
    ensures { result ≡ cell_of (get cells.now) (at_tag tags.now.entries tag) }
{
    match tags.get(&tag) {
        Some(key) => under_key(cells, *key),
        None => None,
    }
}

/// The element of a tag, if it is of an identifier.
fn at_tag_of_id(
    cells: &Slab<PackedElement>,
    tags: &BTreeMap<u32, usize>,
    tag: u32,
    id: Sym,
) -> Option<Element>
    ensures { result ≡ of_symbol id (cell_of (get cells.now) (at_tag tags.now.entries tag)) }
{
    match at_tag(cells, tags, tag) {
        Some(element) => {
            if is_symbol(element.id, id) {
                Some(element)
            } else {
                None
            }
        }
        None => None,
    }
}

/// All elements, in order of tag.
pub fn all(
    alloc: Global,
    cells: &Slab<PackedElement>,
    tags: &BTreeMap<u32, usize>,
) -> Result<List<Element>, NoMemory>
    ensures { IfOk result (λ elements. elements ≡ filter_map (λ e. get cells.now e.1) tags.now.entries) }
{
    let mut out = List::new(alloc);
    'tags: for (_, key) in tags.iter() {
        if let Some(element) = under_key(cells, *key) {
            out.push(element)?;
        }
    }
    Ok(out)
}

/// The elements of an identifier, in order of tag.
pub fn of_id(
    alloc: Global,
    cells: &Slab<PackedElement>,
    tags: &BTreeMap<u32, usize>,
    ids: &BTreeMap<(Place, u32), ()>,
    id: Sym,
) -> Result<List<Element>, NoMemory>
    ensures elements { IfOk result (λ elements. elements ≡ filter_map (λ e. of_symbol id (cell_of (get cells.now) (at_tag tags.now.entries e.0.1))) (of_place (place_of id) ids.now.entries)) }
    ensures ordered { OnOk result (IsOrdered id_cmp ids.now) }
{
    let place = place_of(id);
    let mut out = List::new(alloc);
    'ids: for (key, _) in ids.range((place, 0)..=(place, u32::MAX)) {
        if let Some(element) = at_tag_of_id(cells, tags, key.1, id) {
            out.push(element)?;
        }
    }
    Ok(out)
}
