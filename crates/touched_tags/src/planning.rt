// What goes and what comes, before anything changes.
ghost use Rattle.std.specs.Prelude.{◌≡◌, ◌+◌, ◌-◌, ◌≤◌, [], ◌∷◌, length, map, true, false, IfOk, IsTrue};
ghost use Rattle.soar_sym.specs.declared.symbol.Triple.{Triple as TripleOf};
ghost use Rattle.soar_wm.specs.WorkingMemory.{IsLawful, triple_of};
ghost use Rattle.soar_wm.specs.declared.element.Element.{Element as ElementOf};
ghost use Rattle.defs_soar.specs.Laws.{IsIn};
ghost use Rattle.defs_soar.specs.Limits.{elements_to, first_passed, tags_to};
ghost use Rattle.defs_soar.specs.Sorted.{has_symbol};
ghost use Rattle.defs_soar.specs.Values.{has_triple_among};
ghost use Rattle.soar_settle.specs.Tagging.{IsTripleKnown};
ghost use Rattle.touched_tags.specs.Plans.{IsSought, Plans};
ghost use Rattle.touched_tags.specs.Touched.{has_plain};

use crate::judging::judge_all;
use crate::kept_set::KeptSet;
use crate::looking::looked_at;
use crate::tag_order::in_tag_order;
use defs_soar::{Goal, Which};
use soar_settle::{Stop, in_order, limit_passed};
use soar_sym::{List, NoMemory, Sym, SymTable, Triple};
use soar_wm::{Element, Memory};
use std::alloc::Global;

/// The elements that go, in order of tag, and the triples that are new, in their order.
#[derive(Drop)]
pub struct Plan {
    pub going: List<Element>,
    pub triples: List<Triple>,
}

/// What has to go and to come so that working memory holds just the kept triples, and whether a limit is passed.
pub fn planned<K: KeptSet>(
    alloc: Global,
    table: &SymTable,
    before: &[Sym],
    goals: &[Goal],
    kept: &K,
    touched: &[Triple],
    memory: &Memory,
) -> Result<Plan, Stop>
    requires known { (t : TripleOf) → has_triple_among (K.triples kept.now) t ≡ true → IsTripleKnown table.now t }
    requires limit { memory.now.limit ≡ 4000000 }
    requires same { (t : TripleOf) → has_plain touched.now t ≡ false → has_triple_among (K.triples kept.now) t ≡ has_triple_among (map triple_of memory.now.elements) t }
    requires flags { (e : ElementOf) → IsIn e memory.now.elements → e.of_state ≡ has_symbol before.now e.id }
    ensures { Plans table.now goals.now (K.triples kept.now) memory.now result }
{
    let plan = sought(alloc, table, before, goals, kept, touched, memory)?;
    match passed(alloc, memory, plan.going.len(), plan.triples.len())? {
        Some(which) => Err(Stop::Limit(which)),
        None => Ok(plan),
    }
}

/// What has to go and to come.
fn sought<K: KeptSet>(
    alloc: Global,
    table: &SymTable,
    before: &[Sym],
    goals: &[Goal],
    kept: &K,
    touched: &[Triple],
    memory: &Memory,
) -> Result<Plan, NoMemory>
    requires known { (t : TripleOf) → has_triple_among (K.triples kept.now) t ≡ true → IsTripleKnown table.now t }
    requires same { (t : TripleOf) → has_plain touched.now t ≡ false → has_triple_among (K.triples kept.now) t ≡ has_triple_among (map triple_of memory.now.elements) t }
    requires flags { (e : ElementOf) → IsIn e memory.now.elements → e.of_state ≡ has_symbol before.now e.id }
    ensures { IfOk result (IsSought table.now goals.now (K.triples kept.now) memory.now) }
{
    table.law();
    law(memory);
    let looked = looked_at(alloc, before, goals, touched, memory)?;
    let judged = judge_all(alloc, goals, kept, looked.as_slice(), memory)?;
    let going = in_tag_order(alloc, judged.gone)?;
    let triples = in_order(alloc, table, judged.come.as_slice())?;
    Ok(Plan { going, triples })
}

/// What is true of every working memory.
fn law(memory: &Memory)
    ensures { IsLawful memory.now }
{
    let _ = memory.get(0);
}

/// The most elements of working memory.
const MOST_ELEMENTS: usize = 4_000_000;

/// The limit that is passed where so many elements go and so many are new, of elements before tags. There are
/// no more elements than tags that were given, so they are counted only where those alone might be too many.
fn passed(
    alloc: Global,
    memory: &Memory,
    going: usize,
    new: usize,
) -> Result<Option<Which>, NoMemory>
    requires limit { memory.now.limit ≡ 4000000 }
    requires few { going ≤ length memory.now.elements }
    ensures { IfOk result (λ which. which ≡ first_passed (elements_to (length memory.now.elements - going + new) ∷ tags_to (memory.now.last + new) ∷ [])) }
{
    law(memory);
    let last = memory.last_tag();
    if is_within(last, new) {
        return Ok(None);
    }
    let elements = memory.all(alloc)?;
    Ok(limit_passed(elements.len() - going, new, last))
}

/// Whether so many tags more are at most as many as there may be elements.
fn is_within(last: u32, new: usize) -> bool
    ensures { IsTrue result → last + new ≤ 4000000 }
{
    let last = last as usize;
    last <= MOST_ELEMENTS && new <= MOST_ELEMENTS - last
}
