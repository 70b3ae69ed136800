// What the changes of its parent and of its inside make of a negation.
ghost use Rattle.std.specs.Prelude.{◌≡◌, ◌++◌, ◌∷◌, [], take, OnOk, IfOk};
ghost use Rattle.std.specs.Ordering.{nat_cmp};
ghost use Rattle.std.specs.Cmp.Lexicographic.{slice_cmp};
ghost use Rattle.std.specs.BTreeMap.{get, IsOrdered};
ghost use Rattle.node_memory.specs.Memories.{IsIndexed, entries_not_below, row_found, rows_in};
ghost use Rattle.negation_parts.specs.Negations.{is_blocked, kept, fronts, first_begins, found_rows, let_through, negation_gone};
ghost use Rattle.negation_parts.specs.ServedNegation.{ServesNegation};

use match_row::Row;
use node_memory::{Memory, add_found, change};
use row_tags::RowTags;
use soar_sym::{List, NoMemory, Sym};
use std::alloc::Global;
use std::collections::BTreeMap;

/// Whether a key begins with these tags: the first that is not below them tells.
fn has_run(
    alloc: Global,
    rows: &BTreeMap<RowTags, List<(u32, Sym)>>,
    front: &[u32],
) -> Result<bool, NoMemory>
    ensures run { IfOk result (λ b. b ≡ first_begins front.now (entries_not_below front.now rows.now.entries)) }
    ensures ordered { OnOk result (IsOrdered (slice_cmp nat_cmp) rows.now) }
{
    let _count = rows.len();
    let least = RowTags::of(alloc, front)?;
    'run: for (tags, _) in rows.range(least..) {
        return Ok(tags.as_slice().starts_with(front));
    }
    Ok(false)
}

/// Whether a key begins with these tags.
fn blocks(
    alloc: Global,
    rows: &BTreeMap<RowTags, List<(u32, Sym)>>,
    front: &[u32],
) -> Result<bool, NoMemory>
    ensures { IfOk result (λ b. b ≡ is_blocked (rows_in rows.now.entries) front.now) }
{
    let found = has_run(alloc, rows, front)?;
    Ok(found)
}

/// Adds a copy of a row, unless a key begins with its tags.
fn add_kept(
    alloc: Global,
    inner: &BTreeMap<RowTags, List<(u32, Sym)>>,
    row: &Row,
    out: &mut Vec<Row>,
) -> Result<(), NoMemory>
    ensures { OnOk result (out.new.items ≡ out.old.items ++ kept (rows_in inner.now.entries) (row.now ∷ [])) }
{
    if blocks(alloc, inner, row.tags())? {
        return Ok(());
    }
    out.push(row.copy(alloc)?)?;
    Ok(())
}

/// Adds the rows of a list that no key begins with.
pub fn add_all_kept(
    alloc: Global,
    inner: &BTreeMap<RowTags, List<(u32, Sym)>>,
    rows: &[Row],
    out: &mut Vec<Row>,
) -> Result<(), NoMemory>
    ensures { OnOk result (out.new.items ≡ out.old.items ++ kept (rows_in inner.now.entries) rows.now) }
{
    'rows: for row in rows {
        add_kept(alloc, inner, row, out)?;
    }
    Ok(())
}

/// The first n numbers.
fn front(tags: &[u32], n: usize) -> &[u32]
    ensures { result.now ≡ take n tags.now }
{
    let (first, _) = tags.split_at(n.min(tags.len()));
    first
}

/// Adds the row of n tags with which a list of tags begins.
fn add_front(
    alloc: Global,
    rows: &BTreeMap<RowTags, List<(u32, Sym)>>,
    n: usize,
    tags: &[u32],
    out: &mut Vec<Row>,
) -> Result<(), NoMemory>
    ensures { OnOk result (out.new.items ≡ out.old.items ++ row_found (take n tags.now) (get (slice_cmp nat_cmp) rows.now (take n tags.now))) }
{
    let key = List::from_slice(alloc, front(tags, n))?;
    add_found(alloc, rows, &key, out)
}

/// The rows of n tags with which these lists of tags begin.
fn all_fronts(
    alloc: Global,
    rows: &BTreeMap<RowTags, List<(u32, Sym)>>,
    n: usize,
    gone: &[List<u32>],
) -> Result<Vec<Row>, NoMemory>
    ensures { IfOk result (λ v. v.items ≡ found_rows (get (slice_cmp nat_cmp) rows.now) n gone.now) }
{
    let mut out = Vec::new(alloc);
    'gone: for tags in gone {
        add_front(alloc, rows, n, tags.as_slice(), &mut out)?;
    }
    Ok(out)
}

/// Adds copies of lists of tags.
fn copy_all(alloc: Global, lists: &[List<u32>], out: &mut Vec<List<u32>>) -> Result<(), NoMemory>
    ensures { OnOk result (out.new.items ≡ out.old.items ++ lists.now) }
{
    'lists: for list in lists {
        out.push(List::from_slice(alloc, list.as_slice())?)?;
    }
    Ok(())
}

/// Adds the first n tags of each row.
fn fronts_all(
    alloc: Global,
    rows: &[Row],
    n: usize,
    out: &mut Vec<List<u32>>,
) -> Result<(), NoMemory>
    ensures { OnOk result (out.new.items ≡ out.old.items ++ fronts n rows.now) }
{
    'rows: for row in rows {
        out.push(List::from_slice(alloc, front(row.tags(), n))?)?;
    }
    Ok(())
}

/// The rows that come to a negation.
pub fn come_to_negation(
    alloc: Global,
    n: usize,
    parent: &Memory,
    rows_come: &[Row],
    inner: &Memory,
    inner_gone: &[List<u32>],
) -> Result<Vec<Row>, NoMemory>
    ensures come { IfOk result (λ v. v.items ≡ let_through (get (slice_cmp nat_cmp) parent.now.rows) n rows_come.now (rows_in inner.now.rows.entries) inner_gone.now) }
    ensures ordered { OnOk result (IsOrdered (slice_cmp nat_cmp) inner.now.rows) }
{
    let _count = inner.rows.len();
    let mut out = Vec::new(alloc);
    add_all_kept(alloc, &inner.rows, rows_come, &mut out)?;
    let freed = all_fronts(alloc, &parent.rows, n, inner_gone)?;
    add_all_kept(alloc, &inner.rows, freed.as_slice(), &mut out)?;
    Ok(out)
}

/// The tags of the rows that go from a negation.
pub fn go_from_negation(
    alloc: Global,
    n: usize,
    rows_gone: &[List<u32>],
    inner_come: &[Row],
) -> Result<Vec<List<u32>>, NoMemory>
    ensures { IfOk result (λ v. v.items ≡ negation_gone n rows_gone.now inner_come.now) }
{
    let mut out = Vec::new(alloc);
    copy_all(alloc, rows_gone, &mut out)?;
    fronts_all(alloc, inner_come, n, &mut out)?;
    Ok(out)
}

/// Serves a negation below a node whose rows have n tags each: works out what comes and what goes, and puts it into effect.
pub fn serve_negation(
    alloc: Global,
    n: usize,
    parent: &Memory,
    rows_come: &[Row],
    rows_gone: &[List<u32>],
    inner: &Memory,
    inner_come: &[Row],
    inner_gone: &[List<u32>],
    child: &mut Memory,
) -> Result<(Vec<Row>, Vec<List<u32>>), NoMemory>
    requires { IsIndexed child.old.joined.items (get (slice_cmp nat_cmp) child.old.rows) child.old.index }
    ensures serves { IfOk result (λ r. ServesNegation n (get (slice_cmp nat_cmp) parent.now.rows) rows_come.now rows_gone.now (get (slice_cmp nat_cmp) inner.now.rows) inner_come.now inner_gone.now (get (slice_cmp nat_cmp) child.old.rows) (get (slice_cmp nat_cmp) child.new.rows) r.0.items r.1.items) }
    ensures joined { OnOk result (child.new.joined.items ≡ child.old.joined.items) }
    ensures indexed { OnOk result (IsIndexed child.new.joined.items (get (slice_cmp nat_cmp) child.new.rows) child.new.index) }
{
    let added = come_to_negation(alloc, n, parent, rows_come, inner, inner_gone)?;
    let removed = go_from_negation(alloc, n, rows_gone, inner_come)?;
    change(alloc, child, added.as_slice(), removed.as_slice())?;
    Ok((added, removed))
}
