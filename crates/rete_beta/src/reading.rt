// The rows of a node.
ghost use Rattle.std.specs.Prelude.{◌≡◌, map, IsSome, IfOk};
ghost use Rattle.std.specs.BTreeMap as found;
ghost use Rattle.std.specs.Cmp.Lexicographic.{slice_cmp};
ghost use Rattle.std.specs.Option.{option_map};
ghost use Rattle.std.specs.Ordering.{nat_cmp};
ghost use Rattle.slab.specs.Slab.{get};
ghost use Rattle.defs_match.specs.Conflict.{instance_of};
ghost use Rattle.defs_match.specs.Rows.{rows};
ghost use Rattle.node_table.specs.Nodes.{key_at};
ghost use Rattle.rete_beta.specs.Networks.{IsNetwork};
ghost use Rattle.rete_beta.specs.Told.{IsRowOf, told_in};
ghost use Rattle.rete_beta.specs.Ways.{Way, IsWay, conditions_of};

use crate::network::Network;
use defs_match::{Instance, negation_keeps};
use match_row::Row;
use node_memory::add_found;
use node_table::{Node, tokens};
use row_tags::RowTags;
use slab::Slab;
use soar_sym::{List, NoMemory, Sym};
use std::alloc::Global;
use std::collections::BTreeMap;

/// The rows of a node, as instances of rule 0.
pub fn tokens_at(alloc: Global, net: &Network, n: usize) -> Result<List<Instance>, NoMemory>
    requires network { IsNetwork net.now }
    requires live { IsSome (get net.now.nodes n) }
    ensures { IfOk result (λ v. (way : Way) → IsWay (key_at (get net.now.nodes)) way n → v ≡ map (instance_of 0) (rows (conditions_of way) net.now.alpha.elements)) }
{
    negation_keeps();
    let Some(node) = net.nodes.get(n) else {
        unreachable!();
    };
    tokens(alloc, &node.memory)
}

/// The row of these tags as an instance of rule 0, where it is found.
fn instance_at(
    alloc: Global,
    rows: &BTreeMap<RowTags, List<(u32, Sym)>>,
    tags: &List<u32>,
) -> Result<Option<Instance>, NoMemory>
    ensures { IfOk result (λ i. i ≡ option_map (λ bindings. instance_of 0 (record { tags = tags.now; bindings = bindings })) (found.get (slice_cmp nat_cmp) rows.now tags.now)) }
{
    let mut out = Vec::new(alloc);
    add_found(alloc, rows, tags, &mut out)?;
    let Some(row) = out.pop() else {
        return Ok(None);
    };
    let (tags, binds) = row.into_parts(alloc)?;
    Ok(Some(Instance {
        rule: 0,
        tags,
        binds,
    }))
}

/// The row of a node with these tags as an instance of rule 0, where there is one.
pub fn row_at(
    alloc: Global,
    net: &Network,
    n: usize,
    tags: &List<u32>,
) -> Result<Option<Instance>, NoMemory>
    requires network { IsNetwork net.now }
    requires live { IsSome (get net.now.nodes n) }
    ensures { IfOk result (λ i. (way : Way) → IsWay (key_at (get net.now.nodes)) way n → IsRowOf (rows (conditions_of way) net.now.alpha.elements) tags.now i) }
{
    negation_keeps();
    let Some(node) = net.nodes.get(n) else {
        unreachable!();
    };
    instance_at(alloc, &node.memory.rows, tags)
}

/// The rows that came to a node at the last change that it served.
pub fn come_to(nodes: &Slab<Node>, n: usize) -> &[Row]
    ensures { result.now ≡ (told_in (get nodes.now n)).come }
{
    match nodes.get(n) {
        Some(node) => node.come.as_slice(),
        None => &[],
    }
}

/// The tags of the rows that went from a node at the last change that it served.
pub fn gone_from(nodes: &Slab<Node>, n: usize) -> &[List<u32>]
    ensures { result.now ≡ (told_in (get nodes.now n)).gone }
{
    match nodes.get(n) {
        Some(node) => node.gone.as_slice(),
        None => &[],
    }
}
