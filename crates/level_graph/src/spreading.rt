// Levels are passed on along the links, until none can fall any more.
ghost use Rattle.level_graph.specs.Listed.{linked};
ghost use Rattle.level_graph.specs.Marks.{mark_at, has_mark, weight, weight_of};
ghost use Rattle.level_graph.specs.Spreading.{Spreads, Passed, is_above};
ghost use Rattle.level_laws.specs.Labels.{Links as LinksOf};
ghost use Rattle.std.specs.Prelude.{◌≡◌, ◌*◌, ◌+◌, ◌≤◌, [], IsTrue, true, OnOk, length, List as ListOf};
ghost use Rattle.soar_sym.specs.declared.symbol.Sym.{Sym as SymOf};
ghost use Rattle.defs_soar.specs.Sorted.{has_symbol};

use crate::links::Links;
use crate::marks::Marks;
use soar_sym::{List, NoMemory, Sym, is_symbol};

/// Passes the levels of what waits on along the links. All that is linked has a place.
pub fn spread(
    marks: &mut Marks,
    links: &Links,
    goals: &[Sym],
    waiting: &mut List<Sym>,
) -> Result<(), NoMemory>
    requires places { (x y : SymOf) → linked links.now x y ≡ true → has_mark marks.old y ≡ true }
    requires spreads { Spreads (linked links.now) goals.now (mark_at marks.old) waiting.old }
    ensures { OnOk result (Spreads (linked links.now) goals.now (mark_at marks.new) []) }
{
    'waiting: while let Some(id) = waiting.pop() {
        if let Some(level) = marks.get(id) {
            pass_on(marks, links.of(id), goals, level, waiting)?;
        }
    }
    Ok(())
}

/// Passes a level on to these identifiers, and lets those wait whose level falls by that.
fn pass_on(
    marks: &mut Marks,
    values: &[Sym],
    goals: &[Sym],
    level: u32,
    waiting: &mut List<Sym>,
) -> Result<(), NoMemory>
    requires { (s : SymOf) → has_symbol values.now s ≡ true → has_mark marks.old s ≡ true }
    ensures places { OnOk result ((s : SymOf) → has_mark marks.new s ≡ has_mark marks.old s) }
    ensures passed { OnOk result (Passed goals.now values.now level (mark_at marks.old) waiting.old (mark_at marks.new) waiting.new []) }
    ensures less { OnOk result (2 * weight marks.new + length waiting.new ≤ 2 * weight marks.old + length waiting.old) }
{
    'values: for value in values {
        if falls_to(marks.get(*value), level) && !has_symbol(goals, *value) {
            waiting.push(*value)?;
            marks.set(*value, Some(level));
        }
    }
    Ok(())
}

/// Whether a level, or none, is above another.
fn falls_to(mark: Option<u32>, level: u32) -> bool
    ensures { result ≡ is_above mark level }
{
    match mark {
        Some(other) => level < other,
        None => true,
    }
}

/// Whether a symbol is among these.
fn has_symbol(symbols: &[Sym], symbol: Sym) -> bool
    ensures { result ≡ has_symbol symbols.now symbol }
{
    'symbols: for other in symbols {
        if is_symbol(symbol, *other) {
            return true;
        }
    }
    false
}
