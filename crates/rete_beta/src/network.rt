// What a network keeps.
ghost use Rattle.std.specs.Prelude.{◌≡◌, [], None, IfOk};
ghost use Rattle.slab.specs.Slab.{get};
ghost use Rattle.rete_beta.specs.Networks.{IsNetwork, IsRoot, IsRootAlone, StartsWith};

use match_row::Row;
use node_agenda::TurnIndex;
use node_memory::{ElementIndex, filled};
use node_table::{Hears, Node, NodeKey};
use rete_alpha::Alpha;
use slab::Slab;
use soar_sym::NoMemory;
use std::alloc::Global;
use std::collections::BTreeMap;

/// Pattern memories and elements, the nodes by number and by key, and who reads what.
#[derive(Drop)]
pub struct Network {
    pub alpha: Alpha,
    pub index: ElementIndex,
    pub numbers: BTreeMap<NodeKey, usize>,
    pub nodes: Slab<Node>,

    /// The nodes that read the node of a number and hear of its rows.
    pub below: TurnIndex,

    /// The joins that ask for the pattern memory of a number and hear of its elements.
    pub takers: TurnIndex,

    /// The next change.
    pub stamp: u64,

    /// How many nodes were made.
    pub made: u64,
}

/// The root, which has the empty row.
fn root(alloc: Global) -> Result<Node, NoMemory>
    ensures { IfOk result (λ node. IsRoot node) }
{
    let row = Row::empty(alloc);
    let memory = filled(alloc, &[row])?;
    Ok(Node {
        key: None,
        tags: 0,
        made: 0,
        stamp: 0,
        alpha: 0,
        hears: Hears {
            rows: true,
            elements: true,
        },
        requests: 1,
        memory,
        come: Vec::new(alloc),
        gone: Vec::new(alloc),
    })
}

/// The root alone.
fn root_nodes(alloc: Global) -> Result<Slab<Node>, NoMemory>
    ensures { IfOk result (λ nodes. IsRootAlone (get nodes)) }
{
    let mut nodes = Slab::new(alloc);
    let root = root(alloc)?;
    nodes.insert(root)?;
    Ok(nodes)
}

/// The root alone, and no elements.
pub fn start(alloc: Global) -> Result<Network, NoMemory>
    ensures network { IfOk result (λ n. IsNetwork n) }
    ensures starts { IfOk result (λ n. StartsWith (get n.nodes)) }
    ensures elements { IfOk result (λ n. n.alpha.elements ≡ []) }
{
    let nodes = root_nodes(alloc)?;
    let alpha = Alpha::new(alloc)?;
    let index = ElementIndex::new(alloc);
    let numbers = BTreeMap::new(alloc);
    let below = TurnIndex::new(alloc);
    let takers = TurnIndex::new(alloc);
    Ok(Network {
        alpha,
        index,
        numbers,
        nodes,
        below,
        takers,
        stamp: 1,
        made: 1,
    })
}
