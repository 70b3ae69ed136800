// Serving a node, in the table of nodes.
ghost use Rattle.std.specs.Prelude.{◌≡◌, ◌≢◌, ℕ, false, Some, OnOk, IfOk, IfSome, IsSome};
ghost use Rattle.slab.specs.Slab.{get};
ghost use Rattle.node_table.specs.Nodes.{NodeOf};
ghost use Rattle.node_table.specs.Serving.{found, AreIndexed, CanJoin, TellsJoin, TellsNegation, come_at, gone_at, IsKeyed, HasChange, TakesAt, ServedAt, IsServed};
ghost use Rattle.node_table.specs.Hearing.{AllAsk, HearsAfter};
ghost use Rattle.node_table.specs.declared.node.Step.TheVariants.{Join};

use crate::hearing::hears_at;
use crate::node::{Hears, Node, Step};
use join_parts::{come_to_join, go_from_join};
use match_row::Row;
use negation_parts::{come_to_negation, go_from_negation};
use node_memory::{ElementIndex, change};
use rete_alpha::Alpha;
use slab::Slab;
use soar_rule::Pattern;
use soar_sym::{List, NoMemory};
use soar_wm::Element;
use std::alloc::Global;

/// The rows that came to a node at a change: none, where it was not served.
pub fn come_at(node: &Node, stamp: u64) -> &[Row]
    ensures { result.now ≡ come_at stamp node.now }
{
    if node.stamp == stamp {
        node.come.as_slice()
    } else {
        &[]
    }
}

/// The tags of the rows that went from a node at a change.
pub fn gone_at(node: &Node, stamp: u64) -> &[List<u32>]
    ensures { result.now ≡ gone_at stamp node.now }
{
    if node.stamp == stamp {
        node.gone.as_slice()
    } else {
        &[]
    }
}

/// What a change makes of the rows of a join.
fn change_of_join(
    alloc: Global,
    p: &Pattern,
    parent: &Node,
    node: &Node,
    stamp: u64,
    index: &ElementIndex,
    come: Option<Element>,
    goes: Option<Element>,
) -> Result<(Vec<Row>, Vec<List<u32>>), NoMemory>
    requires indexed { AreIndexed parent.now.memory }
    requires joined { CanJoin (Join p.now) parent.now.memory }
    ensures { IfOk result (λ r. TellsJoin p.now stamp parent.now (found node.now.memory) index.now come goes r.0.items r.1.items) }
{
    let added = come_to_join(
        alloc,
        p,
        &parent.memory,
        come_at(parent, stamp),
        index,
        come,
    )?;
    let removed = go_from_join(
        alloc,
        p,
        &parent.memory,
        gone_at(parent, stamp),
        &node.memory,
        goes,
    )?;
    Ok((added, removed))
}

/// What a change makes of the rows of a negation.
fn change_of_negation(
    alloc: Global,
    parent: &Node,
    inner: &Node,
    stamp: u64,
) -> Result<(Vec<Row>, Vec<List<u32>>), NoMemory>
    ensures { IfOk result (λ r. TellsNegation stamp parent.now inner.now r.0.items r.1.items) }
{
    let added = come_to_negation(
        alloc,
        parent.tags,
        &parent.memory,
        come_at(parent, stamp),
        &inner.memory,
        gone_at(inner, stamp),
    )?;
    let removed = go_from_negation(
        alloc,
        parent.tags,
        gone_at(parent, stamp),
        come_at(inner, stamp),
    )?;
    Ok((added, removed))
}

/// What a change makes of the rows of a negation, whose inside is the node of a number.
fn change_behind(
    alloc: Global,
    nodes: &Slab<Node>,
    parent: &Node,
    m: usize,
    stamp: u64,
) -> Result<(Vec<Row>, Vec<List<u32>>), NoMemory>
    requires { IsSome (get nodes.now m) }
    ensures { IfOk result (λ r. (inner : NodeOf) → get nodes.now m ≡ Some inner → TellsNegation stamp parent.now inner r.0.items r.1.items) }
{
    let Some(inner) = nodes.get(m) else {
        unreachable!();
    };
    change_of_negation(alloc, parent, inner, stamp)
}

/// What a change makes of the rows of the node of a number.
fn change_at(
    alloc: Global,
    nodes: &Slab<Node>,
    n: usize,
    stamp: u64,
    index: &ElementIndex,
    come: Option<Element>,
    goes: Option<Element>,
) -> Result<(Vec<Row>, Vec<List<u32>>), NoMemory>
    requires { IsKeyed (get nodes.now) n }
    ensures { IfOk result (λ r. HasChange (get nodes.now) n stamp index.now come goes r.0.items r.1.items) }
{
    let Some(node) = nodes.get(n) else {
        unreachable!();
    };
    let Some(key) = &node.key else {
        unreachable!();
    };
    let Some(parent) = nodes.get(key.parent) else {
        unreachable!();
    };
    match &key.step {
        Step::Join(p) => change_of_join(alloc, p, parent, node, stamp, index, come, goes),
        Step::Negation(m) => change_behind(alloc, nodes, parent, *m, stamp),
    }
}

/// Puts a change of a node into effect, and notes it.
fn take_change(
    alloc: Global,
    node: &mut Node,
    stamp: u64,
    hears: Hears,
    come: Vec<Row>,
    gone: Vec<List<u32>>,
) -> Result<(), NoMemory>
    requires indexed { AreIndexed node.old.memory }
    ensures served { OnOk result (IsServed node.old node.new stamp come.items gone.items) }
    ensures hears { OnOk result (node.new.hears ≡ hears) }
{
    change(alloc, &mut node.memory, come.as_slice(), gone.as_slice())?;
    node.hears = hears;
    node.come = come;
    node.gone = gone;
    node.stamp = stamp;
    Ok(())
}

/// Puts a change of the node of a number into effect.
fn take_change_at(
    alloc: Global,
    nodes: &mut Slab<Node>,
    n: usize,
    stamp: u64,
    hears: Hears,
    come: Vec<Row>,
    gone: Vec<List<u32>>,
) -> Result<(), NoMemory>
    requires { IfSome (get nodes.old n) (λ node. AreIndexed node.memory) }
    ensures takes { OnOk result (TakesAt (get nodes.old n) (get nodes.new n) stamp come.items gone.items) }
    ensures hears { OnOk result ((now : NodeOf) → get nodes.new n ≡ Some now → now.hears ≡ hears) }
    ensures others { OnOk result ((k : ℕ) → k ≢ n → get nodes.new k ≡ get nodes.old k) }
{
    match nodes.get_mut(n) {
        Some(node) => take_change(alloc, node, stamp, hears, come, gone),
        None => Ok(()),
    }
}

/// Serves a node: works out what the changes of the rows that it reads and of the elements make of its rows, and what it has to hear of
/// from then on, and puts it into effect.
pub fn serve(
    alloc: Global,
    nodes: &mut Slab<Node>,
    alpha: &Alpha,
    n: usize,
    stamp: u64,
    index: &ElementIndex,
    come: Option<Element>,
    goes: Option<Element>,
) -> Result<(), NoMemory>
    requires keyed { IsKeyed (get nodes.old) n }
    requires works { alpha.now.failed ≡ false }
    requires asked { AllAsk (get nodes.old) alpha.now }
    ensures served { OnOk result (ServedAt (get nodes.old) (get nodes.new) n stamp index.now come goes) }
    ensures hears { OnOk result (HearsAfter (get nodes.old) (get nodes.new) n alpha.now.elements) }
{
    let (added, removed) = change_at(alloc, nodes, n, stamp, index, come, goes)?;
    let hears = hears_at(nodes, alpha, n, stamp);
    take_change_at(alloc, nodes, n, stamp, hears, added, removed)?;
    Ok(())
}
