// A parent is made ready for a new node.
ghost use Rattle.std.specs.Prelude.{◌≡◌, ◌≢◌, ℕ, Some, OnOk, IfSome};
ghost use Rattle.std.specs.List.{list_any};
ghost use Rattle.slab.specs.Slab.{get};
ghost use Rattle.node_memory.specs.Symbols.{joined_eq};
ghost use Rattle.node_table.specs.Serving.{AreIndexed, first_of};
ghost use Rattle.node_table.specs.Making.{IsReady, ReadyAt};

use crate::node::{Node, Step};
use join_parts::joined_of;
use node_memory::{Joined, index_by};
use slab::Slab;
use soar_sym::NoMemory;
use std::alloc::Global;

/// Whether variables are among these.
fn is_among(all: &[Joined], joined: Joined) -> bool
    ensures { result ≡ list_any (λ j. joined_eq j joined) all.now }
{
    all.iter().any(|j| *j == joined)
}

/// The variables by which a step finds the rows of its parent.
fn first_of(step: &Step) -> Option<Joined>
    ensures { result ≡ first_of step.now }
{
    match step {
        Step::Join(p) => Some(joined_of(p)),
        Step::Negation(_) => None,
    }
}

/// Indexes the rows of a node by variables, unless they are already.
fn index_once(alloc: Global, node: &mut Node, step: &Step, joined: Joined) -> Result<(), NoMemory>
    requires indexed { AreIndexed node.old.memory }
    requires first { first_of step.now ≡ Some joined }
    ensures { OnOk result (IsReady node.old node.new step.now) }
{
    if is_among(node.memory.joined.as_slice(), joined) {
        return Ok(());
    }
    index_by(alloc, &mut node.memory, joined)?;
    Ok(())
}

/// Makes a node ready for one below it.
fn index_for(alloc: Global, node: &mut Node, step: &Step) -> Result<(), NoMemory>
    requires indexed { AreIndexed node.old.memory }
    ensures { OnOk result (IsReady node.old node.new step.now) }
{
    match first_of(step) {
        Some(joined) => index_once(alloc, node, step, joined),
        None => Ok(()),
    }
}

/// Makes the node of a number ready for one below it.
pub fn index_at(
    alloc: Global,
    nodes: &mut Slab<Node>,
    n: usize,
    step: &Step,
) -> Result<(), NoMemory>
    requires { IfSome (get nodes.old n) (λ node. AreIndexed node.memory) }
    ensures ready { OnOk result (ReadyAt (get nodes.old n) (get nodes.new n) step.now) }
    ensures others { OnOk result ((k : ℕ) → k ≢ n → get nodes.new k ≡ get nodes.old k) }
{
    match nodes.get_mut(n) {
        Some(node) => index_for(alloc, node, step),
        None => Ok(()),
    }
}
