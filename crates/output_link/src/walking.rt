// Walks from the output link, identifier by identifier.
ghost use Rattle.std.specs.Prelude.{◌≡◌, IfOk, OnOk, List as ListOf, map};
ghost use Rattle.std.specs.BTreeMap.{insert_entry};
ghost use Rattle.std.specs.Ordering.{nat_cmp};
ghost use Rattle.soar_sym.specs.declared.symbol.Sym.{Sym as SymOf};
ghost use Rattle.soar_wm.specs.WorkingMemory.{triple_of, IsRising};
ghost use Rattle.defs_soar.specs.Architecture.{output_identifier};
ghost use Rattle.defs_soar.specs.Goals.{is_goal};
ghost use Rattle.defs_soar.specs.Levels.{reached_from, with_reached};
ghost use Rattle.defs_soar.specs.Sorted.{has_symbol};
ghost use Rattle.defs_soar.specs.Values.{is_identifier};
ghost use Rattle.level_graph.specs.Marks.{has_mark};
ghost use Rattle.output_link.specs.Walking as walking;

use defs_soar::Goal;
use level_graph::Marks;
use soar_sym::{List, NoMemory, Sym, Triple, is_symbol};
use soar_wm::{Element, Memory};
use std::alloc::Global;
use std::collections::BTreeMap;

/// The identifier of the output link.
const OUTPUT: Sym = Sym::Ident {
    letter: b'I',
    number: 3,
};

/// The identifiers of the goals, each looked up in short time.
pub fn ids_of(alloc: Global, goals: &[Goal]) -> Result<Marks, NoMemory>
    ensures { IfOk result (λ ids. (s : SymOf) → has_mark ids s ≡ is_goal goals.now s) }
{
    let mut ids = Marks::new(alloc);
    'goals: for goal in goals {
        ids.add(goal.id)?;
    }
    Ok(ids)
}

/// The triples of what walks from the output link reach and is no goal, by tag.
pub fn shown_by_tag(
    alloc: Global,
    memory: &Memory,
    goals: &Marks,
) -> Result<BTreeMap<u32, Triple>, NoMemory>
    ensures { (ids : ListOf SymOf) → walking.Tells (has_mark goals.now) ids → IfOk result (λ kept. kept.entries ≡ walking.tagged (walking.shown (has_symbol (reached_from ids (map triple_of memory.now.elements) output_identifier)) (has_symbol ids) memory.now.elements)) }
{
    law(memory);
    let mut met = Marks::new(alloc);
    let mut reached = List::new(alloc);
    meet(&mut met, &mut reached, OUTPUT)?;
    let mut kept = BTreeMap::new(alloc);
    let mut at = 0;
    'reached: while at < reached.len() {
        let id = reached.as_slice()[at];
        go_on(alloc, memory, goals, id, &mut met, &mut reached, &mut kept)?;
        at += 1;
    }
    Ok(kept)
}

/// Tells that tags rise in working memory. Nothing is done.
fn law(memory: &Memory)
    ensures { IsRising memory.now.elements }
{
    let _ = memory.get(0);
}

/// Goes on from an identifier that is reached, and keeps its triples where it is no goal.
fn go_on(
    alloc: Global,
    memory: &Memory,
    goals: &Marks,
    id: Sym,
    met: &mut Marks,
    reached: &mut List<Sym>,
    kept: &mut BTreeMap<u32, Triple>,
) -> Result<(), NoMemory>
    requires { (s : SymOf) → has_mark met.old s ≡ has_symbol reached.old s }
    ensures met { OnOk result ((s : SymOf) → has_mark met.new s ≡ has_symbol reached.new s) }
    ensures reached { OnOk result (reached.new ≡ walking.gone_on (has_mark goals.now) memory.now.elements reached.old id) }
    ensures kept { OnOk result (kept.new.entries ≡ walking.kept_with (has_mark goals.now) memory.now.elements kept.old.entries id) }
{
    if goes_on_at(goals, id) {
        let elements = memory.of_id(alloc, id)?;
        meet_values(met, reached, elements.as_slice())?;
        if !goals.has(id) {
            keep(kept, elements.as_slice())?;
        }
    }
    Ok(())
}

/// Whether a walk from the output link goes on through an identifier: its own, or that of no goal.
fn goes_on_at(goals: &Marks, id: Sym) -> bool
    ensures { result ≡ walking.goes_on_at (has_mark goals.now) id }
{
    is_symbol(id, OUTPUT) || !goals.has(id)
}

/// Reaches the identifiers among the values of elements.
fn meet_values(
    met: &mut Marks,
    reached: &mut List<Sym>,
    elements: &[Element],
) -> Result<(), NoMemory>
    requires { (s : SymOf) → has_mark met.old s ≡ has_symbol reached.old s }
    ensures met { OnOk result ((s : SymOf) → has_mark met.new s ≡ has_symbol reached.new s) }
    ensures reached { OnOk result (reached.new ≡ walking.with_values reached.old elements.now) }
{
    'elements: for element in elements {
        meet_value(met, reached, element.value)?;
    }
    Ok(())
}

fn meet_value(met: &mut Marks, reached: &mut List<Sym>, value: Sym) -> Result<(), NoMemory>
    requires { (s : SymOf) → has_mark met.old s ≡ has_symbol reached.old s }
    ensures met { OnOk result ((s : SymOf) → has_mark met.new s ≡ has_symbol reached.new s) }
    ensures reached { OnOk result (reached.new ≡ walking.with_value reached.old value) }
{
    if is_identifier(value) {
        meet(met, reached, value)?;
    }
    Ok(())
}

/// Reaches an identifier, where it was not met.
fn meet(met: &mut Marks, reached: &mut List<Sym>, id: Sym) -> Result<(), NoMemory>
    requires { (s : SymOf) → has_mark met.old s ≡ has_symbol reached.old s }
    ensures met { OnOk result ((s : SymOf) → has_mark met.new s ≡ has_symbol reached.new s) }
    ensures reached { OnOk result (reached.new ≡ with_reached reached.old id) }
{
    if !met.has(id) {
        met.add(id)?;
        reached.push(id)?;
    }
    Ok(())
}

/// Keeps the triples of elements, each at its tag.
fn keep(kept: &mut BTreeMap<u32, Triple>, elements: &[Element]) -> Result<(), NoMemory>
    ensures { OnOk result (kept.new.entries ≡ walking.with_elements elements.now kept.old.entries) }
{
    'elements: for element in elements {
        keep_one(kept, *element)?;
    }
    Ok(())
}

fn keep_one(kept: &mut BTreeMap<u32, Triple>, element: Element) -> Result<(), NoMemory>
    ensures { OnOk result (kept.new.entries ≡ insert_entry nat_cmp kept.old.entries element.tag (triple_of element)) }
{
    let triple = Triple {
        id: element.id,
        attr: element.attr,
        value: element.value,
        accept: element.accept,
    };
    kept.insert(element.tag, triple)?;
    Ok(())
}

fn is_identifier(symbol: Sym) -> bool
    ensures { result ≡ is_identifier symbol }
{
    matches!(symbol, Sym::Ident { .. })
}
