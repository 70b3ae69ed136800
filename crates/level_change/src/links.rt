// Links, each as often as triples lead so.
ghost use Rattle.std.specs.Prelude.{◌≡◌, suc, ◌-◌, ◌++◌, not, OnOk, IfOk, filter, map, is_some, unwrap_or};
ghost use Rattle.std.specs.List.Sorted.{IsStrictlySortedBy};
ghost use Rattle.std.specs.Map.{keys_of};
ghost use Rattle.soar_sym.specs.declared.symbol.Sym.{Sym as SymOf};
ghost use Rattle.defs_soar.specs.Sorted.{has_symbol};
ghost use Rattle.level_change.specs.Links.{Counts, IsCounted, PutsLink, times, if_any, is_linked, links_from, came_later, end_of, place_cmp};

use crate::place::{Id, Place, id_of, link_place, symbol_of};
use crate::store::{Facts, Late, Store, read_if, write};
use packed_ids::PackedId;
use soar_sym::{List, NoMemory, Sym};
use std::alloc::Global;

/// How often a symbol leads to another.
fn times(base: &Facts, late: &Late, from: Sym, to: Sym) -> u32
    ensures { result ≡ unwrap_or (times base.now.entries late.now.entries from to) 0 }
{
    read_if(base, late, link_place(from, to)).unwrap_or(0)
}

/// Whether a symbol leads to another.
pub fn has_link(links: &Store, from: Sym, to: Sym) -> bool
    ensures { result ≡ is_linked links.now from to }
{
    read_if(&links.base, &links.late, link_place(from, to)).is_some()
}

/// How often a symbol leads to another once it does so once more. More than 2^32 - 1 times counts as want of memory.
pub fn one_more(base: &Facts, late: &Late, from: Sym, to: Sym) -> Result<u32, NoMemory>
    ensures { IfOk result (λ more. (counts : Counts) → IsCounted counts base.now.entries late.now.entries → more ≡ suc (counts from to)) }
{
    let times = times(base, late, from, to);
    if times == u32::MAX {
        return Err(NoMemory);
    }
    Ok(times + 1)
}

/// How often a symbol leads to another once it does so once less, and none where it does no more.
pub fn one_less(base: &Facts, late: &Late, from: Sym, to: Sym) -> Option<u32>
    ensures { (counts : Counts) → IsCounted counts base.now.entries late.now.entries → result ≡ if_any (counts from to - 1) }
{
    let times = times(base, late, from, to);
    if times > 1 { Some(times - 1) } else { None }
}

/// Puts how often a symbol leads to another. A symbol that is no identifier counts as want of memory.
pub fn put(late: &mut Late, from: Sym, to: Sym, number: Option<u32>) -> Result<(), NoMemory>
    ensures { OnOk result (PutsLink late.old.entries late.new.entries from to number) }
{
    let place = link_place(from, to).ok_or(NoMemory)?;
    write(late, place, number)
}

/// The symbols to which an identifier leads, some of them twice. Another symbol counts as want of memory.
pub fn ends_of(alloc: Global, links: &Store, id: Sym) -> Result<List<Sym>, NoMemory>
    ensures { IfOk result (λ found. (y : SymOf) → is_linked links.now id y ≡ has_symbol found y) }
{
    let id = id_of(id).ok_or(NoMemory)?;
    let mut found = List::new(alloc);
    add_kept(&links.base, &links.late, id, &mut found)?;
    add_late(&links.late, id, &mut found)?;
    Ok(found)
}

/// Adds the ends of the links from an identifier that are kept, where nothing came later.
fn add_kept(base: &Facts, late: &Late, id: Id, found: &mut List<Sym>) -> Result<(), NoMemory>
    ensures ends { OnOk result (found.new ≡ found.old ++ map end_of (filter (λ e. not (came_later late.now.entries id e.0.1)) (links_from id base.now.entries))) }
    ensures ordered { OnOk result (IsStrictlySortedBy place_cmp (keys_of base.now.entries)) }
{
    'places: for (place, _) in base.range((id, PackedId::new(0, 0))..) {
        if id != place.0 {
            break 'places;
        }
        if !late.contains_key(&(id, place.1)) {
            found.push(symbol_of(place.1))?;
        }
    }
    Ok(())
}

/// Adds the ends of the links from an identifier that came later.
fn add_late(late: &Late, id: Id, found: &mut List<Sym>) -> Result<(), NoMemory>
    ensures ends { OnOk result (found.new ≡ found.old ++ map end_of (filter (λ e. is_some e.1) (links_from id late.now.entries))) }
    ensures ordered { OnOk result (IsStrictlySortedBy place_cmp (keys_of late.now.entries)) }
{
    'places: for (place, value) in late.range((id, PackedId::new(0, 0))..) {
        if id != place.0 {
            break 'places;
        }
        if value.is_some() {
            found.push(symbol_of(place.1))?;
        }
    }
    Ok(())
}
