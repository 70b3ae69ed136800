ghost use Rattle.std.specs.Prelude.{◌≡◌, List as ListOf, true, false, map, OnOk};
ghost use Rattle.soar_sym.specs.Words.{IsKnown};
ghost use Rattle.soar_sym.specs.declared.symbol.Triple.{Triple as TripleOf};
ghost use Rattle.soar_wm.specs.WorkingMemory.{triple_of};
ghost use Rattle.soar_wm.specs.declared.element.Element.{Element as ElementOf};
ghost use Rattle.defs_soar.specs.Goals.{goal_ids};
ghost use Rattle.defs_soar.specs.Laws.{IsIn};
ghost use Rattle.defs_soar.specs.Sorted.{has_symbol};
ghost use Rattle.defs_soar.specs.Values.{has_triple_among};
ghost use Rattle.soar_settle.specs.Tagging.{IsTripleKnown};
ghost use Rattle.soar_settle.specs.Settles.{Retags};
ghost use Rattle.touched_tags.specs.Touched.{has_plain};

use crate::kept_set::KeptSet;
use crate::planning::planned;
use defs_soar::Goal;
use soar_settle::{Changes, Stop, replace};
use soar_sym::{List, Sym, SymTable, Triple};
use soar_wm::Memory;
use std::alloc::Global;

/// Makes working memory hold just the triples that are kept: what stands there with the same flag keeps
/// its tag, and what is new gets the next tags in order of triple (the order is this engine's). Looks only at
/// the named triples, marked and unmarked, and at the elements of identifiers that became goals or are none
/// any more; `ids_before` are the goals' identifiers when memory was made.
/// Where a limit would be passed nothing changes; where memory is refused something may have.
pub fn retag_touched<K: KeptSet>(
    alloc: Global,
    table: &SymTable,
    ids_before: &[Sym],
    goals: &List<Goal>,
    kept: &K,
    touched: &[Triple],
    memory: &mut Memory,
) -> Result<Changes, Stop>
    requires known { (t : TripleOf) → has_triple_among (K.triples kept.now) t ≡ true → IsKnown table.now t.id × IsKnown table.now t.attr × IsKnown table.now t.value }
    requires limit { memory.old.limit ≡ 4000000 }
    requires same { (t : TripleOf) → has_plain touched.now t ≡ false → has_triple_among (K.triples kept.now) t ≡ has_triple_among (map triple_of memory.old.elements) t }
    requires flags { (e : ElementOf) → IsIn e memory.old.elements → e.of_state ≡ has_symbol ids_before.now e.id }
    ensures retags { (all : ListOf TripleOf) → ((t : TripleOf) → has_triple_among all t ≡ has_triple_among (K.triples kept.now) t) →
        Retags table.now goals.now all memory.old memory.new result }
    ensures flags { OnOk result ((e : ElementOf) → IsIn e memory.new.elements → e.of_state ≡ has_symbol (goal_ids goals.now) e.id) }
{
    table.law();
    retag_kept(alloc, table, ids_before, goals, kept, touched, memory)
}

/// Makes working memory hold just the triples that are kept.
fn retag_kept<K: KeptSet>(
    alloc: Global,
    table: &SymTable,
    before: &[Sym],
    goals: &List<Goal>,
    kept: &K,
    touched: &[Triple],
    memory: &mut Memory,
) -> Result<Changes, Stop>
    requires known { (t : TripleOf) → has_triple_among (K.triples kept.now) t ≡ true → IsTripleKnown table.now t }
    requires limit { memory.old.limit ≡ 4000000 }
    requires same { (t : TripleOf) → has_plain touched.now t ≡ false → has_triple_among (K.triples kept.now) t ≡ has_triple_among (map triple_of memory.old.elements) t }
    requires flags { (e : ElementOf) → IsIn e memory.old.elements → e.of_state ≡ has_symbol before.now e.id }
    ensures { Retags table.now goals.now (K.triples kept.now) memory.old memory.new result }
{
    let goals = goals.as_slice();
    let plan = planned(alloc, table, before, goals, kept, touched, memory)?;
    let changes = replace(alloc, goals, plan.going, plan.triples.as_slice(), memory)?;
    Ok(changes)
}
