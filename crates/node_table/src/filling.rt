// The rows of a new node.
ghost use Rattle.std.specs.Prelude.{◌≡◌, ◌↔◌, List as ListOf, IfOk, IsSome, Some};
ghost use Rattle.slab.specs.Slab.{get};
ghost use Rattle.soar_wm.specs.declared.element.Element.{Element as ElementOf};
ghost use Rattle.defs_match.specs.Laws.{IsIn};
ghost use Rattle.defs_match.specs.Rows.{Row as RowOf};
ghost use Rattle.node_memory.specs.Changes.{join, OneEach};
ghost use Rattle.node_memory.specs.Held.{Holds, SameElements};
ghost use Rattle.node_memory.specs.Memories.{rows_in};
ghost use Rattle.negation_parts.specs.Negations.{kept};
ghost use Rattle.node_table.specs.declared.node.Step.TheVariants.{Join};
ghost use Rattle.node_table.specs.Nodes.{NodeOf};
ghost use Rattle.node_table.specs.Serving.{found, AreIndexed, CanJoin};
ghost use Rattle.node_table.specs.Making.{IsParent, IsFilled};

use crate::node::{Node, NodeKey, Step};
use join_parts::come_to_join;
use match_row::Row;
use negation_parts::add_all_kept;
use node_memory::{ElementIndex, Memory, all_rows, filled};
use row_tags::RowTags;
use slab::Slab;
use soar_rule::Pattern;
use soar_sym::{List, NoMemory, Sym};
use std::alloc::Global;
use std::collections::BTreeMap;

/// The rows that the elements make of the rows of a memory.
fn rows_of(
    alloc: Global,
    p: &Pattern,
    parent: &Memory,
    index: &ElementIndex,
) -> Result<Vec<Row>, NoMemory>
    requires indexed { AreIndexed parent.now }
    requires joined { CanJoin (Join p.now) parent.now }
    ensures { IfOk result (λ v. (rows : ListOf RowOf) (w : ListOf ElementOf) → Holds (found parent.now) rows → SameElements index.now w → (x : RowOf) → IsIn x v.items ↔ IsIn x (join p.now w rows)) }
{
    let rows = all_rows(alloc, &parent.rows)?;
    let come = come_to_join(alloc, p, parent, rows.as_slice(), index, None)?;
    Ok(come)
}

/// The memory of a join below a memory.
fn fill_join(
    alloc: Global,
    p: &Pattern,
    parent: &Memory,
    index: &ElementIndex,
) -> Result<Memory, NoMemory>
    requires indexed { AreIndexed parent.now }
    requires joined { CanJoin (Join p.now) parent.now }
    ensures holds { IfOk result (λ m. (rows : ListOf RowOf) (w : ListOf ElementOf) → Holds (found parent.now) rows → SameElements index.now w → OneEach (join p.now w rows) → Holds (found m) (join p.now w rows)) }
    ensures indexed { IfOk result (λ m. AreIndexed m) }
{
    let rows = rows_of(alloc, p, parent, index)?;
    let memory = filled(alloc, rows.as_slice())?;
    Ok(memory)
}

/// The rows with which no row of a map begins.
fn kept_of(
    alloc: Global,
    inner: &BTreeMap<RowTags, List<(u32, Sym)>>,
    rows: &[Row],
) -> Result<Vec<Row>, NoMemory>
    ensures { IfOk result (λ v. v.items ≡ kept (rows_in inner.now.entries) rows.now) }
{
    let mut out = Vec::new(alloc);
    add_all_kept(alloc, inner, rows, &mut out)?;
    Ok(out)
}

/// The rows of a memory with which no row of another begins.
fn rows_kept(alloc: Global, parent: &Memory, inner: &Memory) -> Result<Vec<Row>, NoMemory>
    ensures { IfOk result (λ v. (rows inside : ListOf RowOf) → Holds (found parent.now) rows → Holds (found inner.now) inside → (x : RowOf) → IsIn x v.items ↔ IsIn x (kept inside rows)) }
{
    let _count = inner.rows.len();
    let rows = all_rows(alloc, &parent.rows)?;
    let kept = kept_of(alloc, &inner.rows, rows.as_slice())?;
    Ok(kept)
}

/// The memory of a negation below a memory.
fn fill_negation(alloc: Global, parent: &Memory, inner: &Memory) -> Result<Memory, NoMemory>
    ensures holds { IfOk result (λ m. (rows inside : ListOf RowOf) → Holds (found parent.now) rows → Holds (found inner.now) inside → OneEach (kept inside rows) → Holds (found m) (kept inside rows)) }
    ensures indexed { IfOk result (λ m. AreIndexed m) }
{
    let rows = rows_kept(alloc, parent, inner)?;
    let memory = filled(alloc, rows.as_slice())?;
    Ok(memory)
}

/// The memory of a negation, whose inside is the node of a number.
fn fill_behind(
    alloc: Global,
    nodes: &Slab<Node>,
    parent: &Memory,
    m: usize,
) -> Result<Memory, NoMemory>
    requires { IsSome (get nodes.now m) }
    ensures holds { IfOk result (λ made. (inner : NodeOf) → get nodes.now m ≡ Some inner → (rows inside : ListOf RowOf) → Holds (found parent.now) rows → Holds (found inner.memory) inside → OneEach (kept inside rows) → Holds (found made) (kept inside rows)) }
    ensures indexed { IfOk result (λ made. AreIndexed made) }
{
    let Some(inner) = nodes.get(m) else {
        unreachable!();
    };
    fill_negation(alloc, parent, &inner.memory)
}

/// The memory of a new node: it holds what its step makes of the rows that it reads.
pub fn fill(
    alloc: Global,
    nodes: &Slab<Node>,
    parent: &Memory,
    key: &NodeKey,
    index: &ElementIndex,
) -> Result<Memory, NoMemory>
    requires ready { IsParent (get nodes.now) key.now }
    requires parent { (node : NodeOf) → get nodes.now key.now.parent ≡ Some node → node.memory ≡ parent.now }
    ensures filled { IfOk result (λ m. IsFilled (get nodes.now) key.now index.now m) }
    ensures indexed { IfOk result (λ m. AreIndexed m) }
{
    match &key.step {
        Step::Join(p) => fill_join(alloc, p, parent, index),
        Step::Negation(m) => fill_behind(alloc, nodes, parent, *m),
    }
}
