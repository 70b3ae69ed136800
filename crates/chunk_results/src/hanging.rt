// The identifiers that hang on the results of a firing, step by step.
ghost use Rattle.std.specs.Prelude.{◌≡◌, [], ◌∷◌, filter, flat_map, IfOk, length, OnOk};
ghost use Rattle.soar_sym.specs.declared.symbol.Sym.{Sym as SymOf};
ghost use Rattle.defs_soar.specs.Dependencies.{symbols_of_referent};
ghost use Rattle.defs_soar.specs.History.{firing_seen};
ghost use Rattle.defs_soar.specs.Results.{named_by, with_each_symbol};
ghost use Rattle.defs_soar.specs.Sorted.{has_symbol};
ghost use Rattle.level_graph.specs.Listed.{linked};
ghost use Rattle.chunk_results.specs.Held.{held_as_told, AreSame, leads, Walk};
ghost use Rattle.chunk_results.specs.Told.{hangs_as_told, is_told_result};

use crate::before::Before;
use crate::linking::links_of;
use defs_soar::{Leveled, Preference, Wish};
use level_graph::Links;
use soar_sym::{List, NoMemory, Sym};
use std::alloc::Global;
use symbol_sets::SymbolSet;

/// Identifiers in the order in which they were found, and the same as a set.
#[derive(Drop)]
struct Held {
    set: SymbolSet,
    order: List<Sym>,
}

/// The identifiers that hang on the results of the firing. `rows` are those that may hang on a result.
pub(crate) fn held_by_results<L: Leveled>(
    alloc: Global,
    before: &Before<L>,
    rows: &[Preference],
) -> Result<SymbolSet, NoMemory>
    ensures { IfOk result (λ held. (s : SymOf) → has_symbol held s ≡ has_symbol (held_as_told (L.told before.now.levels.now) before.now.goals.now (firing_seen before.now.firing.now) rows.now) s) }
{
    let mut held = Held {
        set: SymbolSet::new(alloc),
        order: List::new(alloc),
    };
    add_first(before, before.firing.made.as_slice(), &mut held)?;
    add_from_rows(alloc, before, rows, &mut held)?;
    let Held { set, .. } = held;
    Ok(set)
}

// ---- what hangs on the wishes themselves

fn add_first<L: Leveled>(
    before: &Before<L>,
    wishes: &[Wish],
    held: &mut Held,
) -> Result<(), NoMemory>
    requires { AreSame held.old.set held.old.order }
    ensures same { OnOk result (AreSame held.new.set held.new.order) }
    ensures order { OnOk result (held.new.order ≡ with_each_symbol held.old.order (filter (hangs_as_told (L.told before.now.levels.now) before.now.goals.now (firing_seen before.now.firing.now)) (flat_map named_by (filter (is_told_result (L.told before.now.levels.now) before.now.firing.now.depth) wishes.now)))) }
{
    'wishes: for wish in wishes {
        add_of_wish(before, wish, held)?;
    }
    Ok(())
}

/// Adds what hangs on a wish, where it is a result.
fn add_of_wish<L: Leveled>(before: &Before<L>, wish: &Wish, held: &mut Held) -> Result<(), NoMemory>
    requires { AreSame held.old.set held.old.order }
    ensures same { OnOk result (AreSame held.new.set held.new.order) }
    ensures order { OnOk result (held.new.order ≡ with_each_symbol held.old.order (filter (hangs_as_told (L.told before.now.levels.now) before.now.goals.now (firing_seen before.now.firing.now)) (flat_map named_by (filter (is_told_result (L.told before.now.levels.now) before.now.firing.now.depth) (wish.now ∷ []))))) }
{
    if before.is_result(wish) {
        add_named(before, wish, held)
    } else {
        Ok(())
    }
}

fn add_named<L: Leveled>(before: &Before<L>, wish: &Wish, held: &mut Held) -> Result<(), NoMemory>
    requires { AreSame held.old.set held.old.order }
    ensures same { OnOk result (AreSame held.new.set held.new.order) }
    ensures order { OnOk result (held.new.order ≡ with_each_symbol held.old.order (filter (hangs_as_told (L.told before.now.levels.now) before.now.goals.now (firing_seen before.now.firing.now)) (named_by wish.now))) }
{
    add_one(before, wish.value, held)?;
    add_referent(before, wish.referent, held)
}

fn add_referent<L: Leveled>(
    before: &Before<L>,
    referent: Option<Sym>,
    held: &mut Held,
) -> Result<(), NoMemory>
    requires { AreSame held.old.set held.old.order }
    ensures same { OnOk result (AreSame held.new.set held.new.order) }
    ensures order { OnOk result (held.new.order ≡ with_each_symbol held.old.order (filter (hangs_as_told (L.told before.now.levels.now) before.now.goals.now (firing_seen before.now.firing.now)) (symbols_of_referent referent))) }
{
    match referent {
        Some(referent) => add_one(before, referent, held),
        None => Ok(()),
    }
}

/// Adds a symbol, where it hangs and is new.
fn add_one<L: Leveled>(before: &Before<L>, symbol: Sym, held: &mut Held) -> Result<(), NoMemory>
    requires { AreSame held.old.set held.old.order }
    ensures same { OnOk result (AreSame held.new.set held.new.order) }
    ensures order { OnOk result (held.new.order ≡ with_each_symbol held.old.order (filter (hangs_as_told (L.told before.now.levels.now) before.now.goals.now (firing_seen before.now.firing.now)) (symbol ∷ []))) }
{
    if before.hangs(symbol) && !held.set.has(symbol) {
        held.set.add(symbol)?;
        held.order.push(symbol)?;
    }
    Ok(())
}

// ---- what hangs on these

/// Goes on from what was found along the rows, until nothing new is found.
fn add_from_rows<L: Leveled>(
    alloc: Global,
    before: &Before<L>,
    rows: &[Preference],
    held: &mut Held,
) -> Result<(), NoMemory>
    requires { AreSame held.old.set held.old.order }
    ensures same { OnOk result (AreSame held.new.set held.new.order) }
    ensures walk { OnOk result (Walk (hangs_as_told (L.told before.now.levels.now) before.now.goals.now (firing_seen before.now.firing.now)) (leads rows.now) held.old.order held.new.order (length held.new.order)) }
{
    if held.order.is_empty() {
        return Ok(());
    }
    let links = links_of(alloc, rows)?;
    add_linked(before, &links, held)
}

fn add_linked<L: Leveled>(
    before: &Before<L>,
    links: &Links,
    held: &mut Held,
) -> Result<(), NoMemory>
    requires { AreSame held.old.set held.old.order }
    ensures same { OnOk result (AreSame held.new.set held.new.order) }
    ensures walk { OnOk result (Walk (hangs_as_told (L.told before.now.levels.now) before.now.goals.now (firing_seen before.now.firing.now)) (linked links.now) held.old.order held.new.order (length held.new.order)) }
{
    let mut at: usize = 0;
    'order: while at < held.order.len() {
        let id = held.order.as_slice()[at];
        add_each(before, links.of(id), held)?;
        at += 1;
    }
    Ok(())
}

fn add_each<L: Leveled>(
    before: &Before<L>,
    symbols: &[Sym],
    held: &mut Held,
) -> Result<(), NoMemory>
    requires { AreSame held.old.set held.old.order }
    ensures same { OnOk result (AreSame held.new.set held.new.order) }
    ensures order { OnOk result (held.new.order ≡ with_each_symbol held.old.order (filter (hangs_as_told (L.told before.now.levels.now) before.now.goals.now (firing_seen before.now.firing.now)) symbols.now)) }
{
    'symbols: for symbol in symbols {
        add_one(before, *symbol, held)?;
    }
    Ok(())
}
