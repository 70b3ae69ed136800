// What the change of its two sides makes of a join.
ghost use Rattle.std.specs.Prelude.{◌≡◌, ◌↔◌, ◌⊎◌, ◌++◌, filter, map, OnOk, IfOk};
ghost use Rattle.std.specs.Ordering.{nat_cmp};
ghost use Rattle.std.specs.Cmp.Lexicographic.{slice_cmp};
ghost use Rattle.std.specs.BTreeMap.{get, IsOrdered};
ghost use Rattle.std.specs.Map.{keys_of};
ghost use Rattle.defs_match.specs.Laws.{IsIn};
ghost use Rattle.defs_match.specs.Rows.{Row as RowOf};
ghost use Rattle.node_memory.specs.Changes.{begins, is_below, below, join, tags_of};
ghost use Rattle.join_parts.specs.Known.{first_variable, joined_of};
ghost use Rattle.node_memory.specs.Memories.{IsIndexed, entries_not_below};
ghost use Rattle.join_parts.specs.Joins.{IsOne, IsOneAt, IsOfOne, GoesFrom, Serves};
ghost use Rattle.node_memory.specs.Runs.{front_while};

use crate::join::{add_all_extended, add_by_one};
use match_row::Row;
use node_memory::{ElementIndex, Joined, Memory, Symbols, change, rows_with};
use row_tags::RowTags;
use soar_rule::{Atom, Pattern, Test};
use soar_sym::{List, NoMemory, Sym};
use soar_wm::Element;
use std::alloc::Global;
use std::collections::BTreeMap;

/// The variable that is a field's first test.
fn first_variable(tests: &[Test]) -> Option<u32>
    ensures { result ≡ first_variable tests.now }
{
    match tests.first() {
        Some(Test::Plain(Atom::Var(variable))) => Some(*variable),
        _ => None,
    }
}

/// The variables by which a join finds the rows of its parent: those that are the first tests of its identifier and of its value.
pub fn joined_of(p: &Pattern) -> Joined
    ensures { result ≡ joined_of p.now }
{
    Joined {
        id: first_variable(p.id.tests.as_slice()),
        value: first_variable(p.value.tests.as_slice()),
    }
}

/// Adds the rows that one element makes of the rows of a memory in which the variable of the pattern's identifier stands for this:
/// of those in which that of its value stands for the element's, or for nothing.
fn add_joined_at(
    alloc: Global,
    p: &Pattern,
    memory: &Memory,
    id: Option<Sym>,
    e: &Element,
    out: &mut Vec<Row>,
) -> Result<(), NoMemory>
    requires indexed { IsIndexed memory.now.joined.items (get (slice_cmp nat_cmp) memory.now.rows) memory.now.index }
    requires joined { IsIn (joined_of p.now) memory.now.joined.items }
    ensures { OnOk result ((x : RowOf) → IsIn x out.new.items ↔ (IsIn x out.old.items ⊎ IsOneAt p.now e.now id (get (slice_cmp nat_cmp) memory.now.rows) x)) }
{
    let joined = joined_of(p);
    let value = Some(e.value);
    let known = rows_with(alloc, memory, joined, Symbols { id, value })?;
    let free = rows_with(alloc, memory, joined, Symbols { id, value: None })?;
    add_by_one(alloc, p, known.as_slice(), e, out)?;
    add_by_one(alloc, p, free.as_slice(), e, out)
}

/// Adds the rows that one element makes of the rows of a memory: of those in which the variables of the pattern's identifier and
/// of its value stand for the element's, or for nothing.
fn add_joined(
    alloc: Global,
    p: &Pattern,
    memory: &Memory,
    e: &Element,
    out: &mut Vec<Row>,
) -> Result<(), NoMemory>
    requires indexed { IsIndexed memory.now.joined.items (get (slice_cmp nat_cmp) memory.now.rows) memory.now.index }
    requires joined { IsIn (joined_of p.now) memory.now.joined.items }
    ensures { OnOk result ((x : RowOf) → IsIn x out.new.items ↔ (IsIn x out.old.items ⊎ IsOne p.now e.now (get (slice_cmp nat_cmp) memory.now.rows) x)) }
{
    add_joined_at(alloc, p, memory, Some(e.id), e, out)?;
    add_joined_at(alloc, p, memory, None, e, out)
}

/// Adds the rows that an element, if any, makes of the rows of a memory.
fn add_of_one(
    alloc: Global,
    p: &Pattern,
    memory: &Memory,
    e: Option<Element>,
    out: &mut Vec<Row>,
) -> Result<(), NoMemory>
    requires indexed { IsIndexed memory.now.joined.items (get (slice_cmp nat_cmp) memory.now.rows) memory.now.index }
    requires joined { IsIn (joined_of p.now) memory.now.joined.items }
    ensures { OnOk result ((x : RowOf) → IsIn x out.new.items ↔ (IsIn x out.old.items ⊎ IsOfOne p.now e (get (slice_cmp nat_cmp) memory.now.rows) x)) }
{
    match e {
        Some(e) => add_joined(alloc, p, memory, &e, out),
        None => Ok(()),
    }
}

/// The rows that come to a join: those that the elements make of the rows that came to its parent, and those that the element that
/// comes makes of its parent's rows.
pub fn come_to_join(
    alloc: Global,
    p: &Pattern,
    parent: &Memory,
    rows_come: &[Row],
    index: &ElementIndex,
    come: Option<Element>,
) -> Result<Vec<Row>, NoMemory>
    requires indexed { IsIndexed parent.now.joined.items (get (slice_cmp nat_cmp) parent.now.rows) parent.now.index }
    requires joined { IsIn (joined_of p.now) parent.now.joined.items }
    ensures { IfOk result (λ v. (x : RowOf) → IsIn x v.items ↔ (IsIn x (join p.now index.now rows_come.now) ⊎ IsOfOne p.now come (get (slice_cmp nat_cmp) parent.now.rows) x)) }
{
    let mut out = Vec::new(alloc);
    add_all_extended(alloc, p, index, rows_come, &mut out)?;
    add_of_one(alloc, p, parent, come, &mut out)?;
    Ok(out)
}

/// Adds the tags of the rows of a map that are below these.
fn add_below(
    alloc: Global,
    rows: &BTreeMap<RowTags, List<(u32, Sym)>>,
    front: &[u32],
    out: &mut Vec<List<u32>>,
) -> Result<(), NoMemory>
    ensures run { OnOk result (out.new.items ≡ out.old.items ++ filter (is_below front.now) (keys_of (front_while (λ e. begins front.now e.0) (entries_not_below front.now rows.now.entries)))) }
    ensures ordered { OnOk result (IsOrdered (slice_cmp nat_cmp) rows.now) }
{
    let _count = rows.len();
    let least = RowTags::of(alloc, front)?;
    'run: for (tags, _) in rows.range(least..) {
        if !tags.as_slice().starts_with(front) {
            break 'run;
        }
        if tags.as_slice().len() == front.len() + 1 {
            out.push(List::from_slice(alloc, tags.as_slice())?)?;
        }
    }
    Ok(())
}

/// Adds the tags of the rows of a map that are below any of these.
fn add_all_below(
    alloc: Global,
    rows: &BTreeMap<RowTags, List<(u32, Sym)>>,
    fronts: &[List<u32>],
    out: &mut Vec<List<u32>>,
) -> Result<(), NoMemory>
    ensures { OnOk result (out.new.items ≡ out.old.items ++ below (keys_of rows.now.entries) fronts.now) }
{
    'fronts: for front in fronts {
        add_below_all(alloc, rows, front.as_slice(), out)?;
    }
    Ok(())
}

/// Adds the tags of the rows of a map that are below these, as a filter.
fn add_below_all(
    alloc: Global,
    rows: &BTreeMap<RowTags, List<(u32, Sym)>>,
    front: &[u32],
    out: &mut Vec<List<u32>>,
) -> Result<(), NoMemory>
    ensures { OnOk result (out.new.items ≡ out.old.items ++ filter (is_below front.now) (keys_of rows.now.entries)) }
{
    add_below(alloc, rows, front, out)
}

/// Adds the tags of rows.
fn add_tags(alloc: Global, rows: &[Row], out: &mut Vec<List<u32>>) -> Result<(), NoMemory>
    ensures { OnOk result (out.new.items ≡ out.old.items ++ tags_of rows.now) }
{
    'rows: for row in rows {
        out.push(List::from_slice(alloc, row.tags())?)?;
    }
    Ok(())
}

/// The tags of the rows that go from a join: those below the rows that went from its parent, and those that the element that goes
/// made of its parent's rows.
pub fn go_from_join(
    alloc: Global,
    p: &Pattern,
    parent: &Memory,
    rows_gone: &[List<u32>],
    child: &Memory,
    gone: Option<Element>,
) -> Result<Vec<List<u32>>, NoMemory>
    requires indexed { IsIndexed parent.now.joined.items (get (slice_cmp nat_cmp) parent.now.rows) parent.now.index }
    requires joined { IsIn (joined_of p.now) parent.now.joined.items }
    ensures goes { IfOk result (λ v. GoesFrom p.now (get (slice_cmp nat_cmp) parent.now.rows) (keys_of child.now.rows.entries) rows_gone.now gone v.items) }
    ensures ordered { OnOk result (IsOrdered (slice_cmp nat_cmp) child.now.rows) }
{
    let _count = child.rows.len();
    let mut lost = Vec::new(alloc);
    add_of_one(alloc, p, parent, gone, &mut lost)?;
    let mut out = Vec::new(alloc);
    add_all_below(alloc, &child.rows, rows_gone, &mut out)?;
    add_tags(alloc, lost.as_slice(), &mut out)?;
    Ok(out)
}

/// Serves a join: works out what comes and what goes, and puts it into effect.
pub fn serve_join(
    alloc: Global,
    p: &Pattern,
    parent: &Memory,
    rows_come: &[Row],
    rows_gone: &[List<u32>],
    child: &mut Memory,
    index: &ElementIndex,
    come: Option<Element>,
    goes: Option<Element>,
) -> Result<(Vec<Row>, Vec<List<u32>>), NoMemory>
    requires indexed { IsIndexed parent.now.joined.items (get (slice_cmp nat_cmp) parent.now.rows) parent.now.index }
    requires child { IsIndexed child.old.joined.items (get (slice_cmp nat_cmp) child.old.rows) child.old.index }
    requires joined { IsIn (joined_of p.now) parent.now.joined.items }
    ensures serves { IfOk result (λ r. Serves p.now (get (slice_cmp nat_cmp) parent.now.rows) rows_come.now rows_gone.now index.now come goes (get (slice_cmp nat_cmp) child.old.rows) (get (slice_cmp nat_cmp) child.new.rows) r.0.items r.1.items) }
    ensures joined { OnOk result (child.new.joined.items ≡ child.old.joined.items) }
    ensures indexed { OnOk result (IsIndexed child.new.joined.items (get (slice_cmp nat_cmp) child.new.rows) child.new.index) }
{
    let added = come_to_join(alloc, p, parent, rows_come, index, come)?;
    let removed = go_from_join(alloc, p, parent, rows_gone, child, goes)?;
    change(alloc, child, added.as_slice(), removed.as_slice())?;
    Ok((added, removed))
}
