// A node goes with its last request, and gives back what it asked for.
ghost use Rattle.std.specs.Prelude.{◌≡◌, ℕ, ◌==◌, if◌then◌else◌, false};
ghost use Rattle.std.specs.Option.{option_map};
ghost use Rattle.std.specs.BTreeMap as numbers_of;
ghost use Rattle.slab.specs.Slab.{get};
ghost use Rattle.node_table.specs.Nodes.{key_cmp, key_at, IsNumbered, one_less};
ghost use Rattle.node_table.specs.Asked.{IsAsked, asker};
ghost use Rattle.node_table.specs.Dropping.{freed, number_of};

use crate::node::{Node, NodeKey, Step};
use crate::requests::release_at;
use rete_alpha::Alpha;
use slab::Slab;
use std::collections::BTreeMap;

/// The number of its pattern memory, where a node is a join.
fn asked_by(node: &Node) -> Option<usize>
    ensures { result ≡ option_map number_of (asker node.now) }
{
    match &node.key {
        Some(
            NodeKey {
                step: Step::Join(_),
                ..
            },
        ) => Some(node.alpha),
        _ => None,
    }
}

/// The number that goes free with the last request for a node.
fn freed(nodes: &Slab<Node>, n: usize) -> Option<usize>
    ensures { result ≡ freed (get nodes.now n) }
{
    let Some(node) = nodes.get(n) else {
        return None;
    };
    if node.requests > 1 {
        return None;
    }
    asked_by(node)
}

/// Takes one request for a node back. With the last the node goes, and so does its request for its pattern.
pub fn drop_node(
    numbers: &mut BTreeMap<NodeKey, usize>,
    nodes: &mut Slab<Node>,
    alpha: &mut Alpha,
    n: usize,
)
    requires numbered { IsNumbered (numbers_of.get key_cmp numbers.old) (key_at (get nodes.old)) }
    requires works { alpha.old.failed ≡ false }
    requires asked { IsAsked nodes.old.slots alpha.old }
    ensures nodes { (k : ℕ) → get nodes.new k ≡ (if k == n then one_less (get nodes.old k) else get nodes.old k) }
    ensures numbered { IsNumbered (numbers_of.get key_cmp numbers.new) (key_at (get nodes.new)) }
    ensures works { alpha.new.failed ≡ false }
    ensures elements { alpha.new.elements ≡ alpha.old.elements }
    ensures asked { IsAsked nodes.new.slots alpha.new }
{
    let number = freed(nodes, n);
    release_at(numbers, nodes, n);
    if let Some(number) = number {
        alpha.release(number);
    }
}
