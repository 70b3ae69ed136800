// Marks and links of triples, and the depths of goals.
ghost use Rattle.level_graph.specs.Listed.{linked};
ghost use Rattle.level_graph.specs.Marks.{mark_at, has_mark};
ghost use Rattle.level_laws.specs.Labels.{has_edge, as_told, depth_of_goal};
ghost use Rattle.std.specs.Prelude.{◌≡◌, ◌||◌, None, OnOk, true, option_map, IfOk};
ghost use Rattle.soar_sym.specs.declared.symbol.Sym.{Sym as SymOf};
ghost use Rattle.soar_sym.specs.Equality.{symbol_eq};
ghost use Rattle.defs_soar.specs.Levels.{or_reached};
ghost use Rattle.level_graph.specs.Spreading.{where_so};
ghost use Rattle.defs_soar.specs.Sorted.{has_symbol};
ghost use Rattle.defs_soar.specs.Values.{is_identifier};

use crate::links::Links;
use crate::marks::Marks;
use soar_sym::{List, NoMemory, Sym, Triple};
use std::alloc::Global;

/// Adds a link for each triple whose value is an identifier, and a place for the level of each such value.
pub fn add_triples(marks: &mut Marks, links: &mut Links, triples: &[Triple]) -> Result<(), NoMemory>
    requires { (x y : SymOf) → linked links.old x y ≡ true → has_mark marks.old y ≡ true }
    ensures links { OnOk result ((x y : SymOf) → linked links.new x y ≡ (has_edge triples.now x y || linked links.old x y)) }
    ensures places { OnOk result ((x y : SymOf) → linked links.new x y ≡ true → has_mark marks.new y ≡ true) }
    ensures marks { OnOk result ((s : SymOf) → mark_at marks.new s ≡ mark_at marks.old s) }
{
    'triples: for triple in triples {
        if is_identifier(triple.value) {
            marks.add(triple.value)?;
            links.add(triple.id, triple.value)?;
        }
    }
    Ok(())
}

/// Tells the depths of the goals, where no level is told yet.
pub fn tell_goals(marks: &mut Marks, goals: &[Sym]) -> Result<(), NoMemory>
    requires { (s : SymOf) → mark_at marks.old s ≡ None }
    ensures depths { OnOk result ((s : SymOf) → mark_at marks.new s ≡ option_map as_told (depth_of_goal goals.now s)) }
    ensures places { OnOk result ((s : SymOf) → has_mark marks.old s ≡ true → has_mark marks.new s ≡ true) }
{
    let mut depth = 1;
    'goals: for goal in goals {
        tell(marks, *goal, depth)?;
        depth = depth.saturating_add(1);
    }
    Ok(())
}

/// Tells the level of a symbol, where none is told yet.
fn tell(marks: &mut Marks, id: Sym, depth: u32) -> Result<(), NoMemory>
    ensures told { OnOk result ((s : SymOf) → mark_at marks.new s ≡ or_reached (mark_at marks.old s) (where_so (symbol_eq s id) depth)) }
    ensures places { OnOk result ((s : SymOf) → has_mark marks.new s ≡ (symbol_eq id s || has_mark marks.old s)) }
{
    marks.add(id)?;
    if marks.get(id).is_none() {
        marks.set(id, Some(depth));
    }
    Ok(())
}

/// The goals, the last first.
pub fn from_last(alloc: Global, goals: &[Sym]) -> Result<List<Sym>, NoMemory>
    ensures { IfOk result (λ list. (s : SymOf) → has_symbol list s ≡ has_symbol goals.now s) }
{
    let mut all = Vec::from_slice(alloc, goals)?;
    all.reverse();
    Ok(List::from_vec(all))
}

fn is_identifier(symbol: Sym) -> bool
    ensures { result ≡ is_identifier symbol }
{
    matches!(symbol, Sym::Ident { .. })
}
