// The links that acceptable rows make.
ghost use Rattle.std.specs.Prelude.{◌≡◌, ◌&&◌, ◌||◌, IfOk, OnOk};
ghost use Rattle.soar_sym.specs.Equality.{symbol_eq};
ghost use Rattle.soar_sym.specs.declared.symbol.Sym.{Sym as SymOf};
ghost use Rattle.defs_soar.specs.Dependencies.{symbols_of_referent};
ghost use Rattle.defs_soar.specs.Sorted.{has_symbol};
ghost use Rattle.defs_soar.specs.Values.{is_identifier};
ghost use Rattle.level_graph.specs.Listed.{linked};
ghost use Rattle.chunk_results.specs.Held.{leads, row_leads};

use defs_soar::{PrefKind, Preference};
use level_graph::Links;
use soar_sym::{NoMemory, Sym, is_identifier};
use std::alloc::Global;

/// A link for each identifier that an acceptable row names.
pub(crate) fn links_of(alloc: Global, rows: &[Preference]) -> Result<Links, NoMemory>
    ensures { IfOk result (λ links. (x y : SymOf) → linked links x y ≡ leads rows.now x y) }
{
    let mut links = Links::new(alloc);
    'rows: for at in (0..rows.len()).rev() {
        add_row(&mut links, &rows[at])?;
    }
    Ok(links)
}

fn add_row(links: &mut Links, row: &Preference) -> Result<(), NoMemory>
    ensures { OnOk result ((x y : SymOf) → linked links.new x y ≡ (row_leads row.now x y || linked links.old x y)) }
{
    if row.wish.kind.is(PrefKind::Accept) {
        add_referent(links, row.wish.id, row.wish.referent)?;
        add_link(links, row.wish.id, row.wish.value)?;
    }
    Ok(())
}

fn add_referent(links: &mut Links, id: Sym, referent: Option<Sym>) -> Result<(), NoMemory>
    ensures { OnOk result ((x y : SymOf) → linked links.new x y ≡ ((symbol_eq x id && (has_symbol (symbols_of_referent referent) y && is_identifier y)) || linked links.old x y)) }
{
    match referent {
        Some(referent) => add_link(links, id, referent),
        None => Ok(()),
    }
}

fn add_link(links: &mut Links, id: Sym, value: Sym) -> Result<(), NoMemory>
    ensures { OnOk result ((x y : SymOf) → linked links.new x y ≡ ((symbol_eq x id && (symbol_eq y value && is_identifier y)) || linked links.old x y)) }
{
    if is_identifier(value) {
        links.add(id, value)?;
    }
    Ok(())
}
