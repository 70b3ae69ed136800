// A new node, from its parent made ready to its request for its pattern.
ghost use Rattle.std.specs.Prelude.{◌≡◌, ◌+◌, ℕ, List as ListOf, [], true, false, Some, None, IsSome, OnOk, IfOk};
ghost use Rattle.std.specs.BTreeMap as numbers_of;
ghost use Rattle.slab.specs.Slab.{get};
ghost use Rattle.defs_match.specs.Laws.{IsIn, ElementsDiffer};
ghost use Rattle.soar_wm.specs.declared.element.Element.{Element as ElementOf};
ghost use Rattle.node_memory.specs.Held.{Holds, SameElements};
ghost use Rattle.node_table.specs.Nodes.{key_cmp, inner_of};
ghost use Rattle.node_table.specs.Serving.{found, tags_after};
ghost use Rattle.node_table.specs.Content.{AllHold};
ghost use Rattle.node_table.specs.Hearing.{hears_some, IsBarren, MayHear, AllHear};
ghost use Rattle.node_table.specs.Making.{IsParent, IsNewNode, IsWhole, AsksFor, Adds};

use crate::filling::fill;
use crate::hearing::{has_members, has_rows, hears};
use crate::node::{Hears, Node, NodeKey, Step};
use crate::readying::index_at;
use crate::requests::ask_first;
use join_parts::constants_of;
use node_memory::{ElementIndex, Memory};
use rete_alpha::Alpha;
use slab::Slab;
use soar_sym::NoMemory;
use std::alloc::Global;
use std::collections::BTreeMap;

/// A copy of a step.
fn copy_step(alloc: Global, step: &Step) -> Result<Step, NoMemory>
    ensures { IfOk result (λ copy. copy ≡ step.now) }
{
    match step {
        Step::Join(p) => Ok(Step::Join(p.copy(alloc)?)),
        Step::Negation(m) => Ok(Step::Negation(*m)),
    }
}

/// How many elements a row has after a step.
fn tags_after(step: &Step, tags: usize) -> Result<usize, NoMemory>
    ensures { IfOk result (λ n. n ≡ tags_after step.now tags) }
{
    match step {
        Step::Join(_) => match tags.checked_add(1) {
            Some(n) => Ok(n),
            None => Err(NoMemory),
        },
        Step::Negation(_) => Ok(tags),
    }
}

/// The number of the pattern memory that a step asks for.
fn ask_pattern(alpha: &mut Alpha, step: &Step) -> Result<usize, NoMemory>
    requires works { alpha.old.failed ≡ false }
    ensures works { OnOk result (alpha.new.failed ≡ false) }
    ensures asks { IfOk result (λ n. AsksFor alpha.old alpha.new step.now n) }
{
    match step {
        Step::Join(p) => alpha.pattern(&constants_of(p)),
        Step::Negation(_) => Ok(0),
    }
}

/// What a new node hears of: of rows, until there is one.
fn first_heard(parent: &Memory, members: bool) -> Hears
    ensures elements { result.elements ≡ false → Holds (found parent.now) [] }
    ensures rows { result.rows ≡ false → members ≡ false }
    ensures either { hears_some result ≡ true }
{
    let none = Hears {
        rows: true,
        elements: false,
    };
    hears(none, has_rows(parent), members, true)
}

/// A new node below a parent that is ready, with its rows.
fn new_node(
    alloc: Global,
    nodes: &Slab<Node>,
    key: &NodeKey,
    index: &ElementIndex,
    alpha: usize,
    made: u64,
    members: bool,
) -> Result<Node, NoMemory>
    requires { IsParent (get nodes.now) key.now }
    ensures new { IfOk result (λ node. IsNewNode (get nodes.now) key.now index.now alpha made node) }
    ensures hears { IfOk result (λ node. (w : ListOf ElementOf) → (members ≡ false → IsBarren key.now.step w) → MayHear (get nodes.now) key.now w node.hears.rows node.hears.elements) }
{
    let Some(parent) = nodes.get(key.parent) else {
        unreachable!();
    };
    let tags = tags_after(&key.step, parent.tags)?;
    let memory = fill(alloc, nodes, &parent.memory, key, index)?;
    let step = copy_step(alloc, &key.step)?;
    Ok(Node {
        key: Some(NodeKey {
            parent: key.parent,
            step,
        }),
        tags,
        made,
        stamp: 0,
        alpha,
        hears: first_heard(&parent.memory, members),
        requests: 1,
        memory,
        come: Vec::new(alloc),
        gone: Vec::new(alloc),
    })
}

/// Makes the node of a key that has none. At once it holds its rows.
pub fn make(
    alloc: Global,
    numbers: &mut BTreeMap<NodeKey, usize>,
    nodes: &mut Slab<Node>,
    alpha: &mut Alpha,
    index: &ElementIndex,
    key: NodeKey,
    made: u64,
) -> Result<usize, NoMemory>
    requires whole { IsWhole (numbers_of.get key_cmp numbers.old) nodes.old.slots alpha.old made }
    requires works { alpha.old.failed ≡ false }
    requires new { numbers_of.get key_cmp numbers.old key ≡ None }
    requires parent { IsSome (get nodes.old key.parent) }
    requires inner { (m : ℕ) → IsIn m (inner_of key.step) → IsSome (get nodes.old m) }
    ensures works { OnOk result (alpha.new.failed ≡ false) }
    ensures elements { OnOk result (alpha.new.elements ≡ alpha.old.elements) }
    ensures whole { OnOk result (IsWhole (numbers_of.get key_cmp numbers.new) nodes.new.slots alpha.new (made + 1)) }
    ensures adds { IfOk result (λ n. (number : ℕ) × AsksFor alpha.old alpha.new key.step number × Adds (get nodes.old) (get nodes.new) key number made n) }
    ensures hear { OnOk result (AllHear (get nodes.old) alpha.old.elements → AllHear (get nodes.new) alpha.new.elements) }
    ensures hold { OnOk result ((w : ListOf ElementOf) → AllHold (get nodes.old) w → SameElements index.now w → ElementsDiffer w → AllHold (get nodes.new) w) }
{
    index_at(alloc, nodes, key.parent, &key.step)?;
    let number = ask_pattern(alpha, &key.step)?;
    let members = has_members(alpha, &key.step, number);
    let node = new_node(alloc, nodes, &key, index, number, made, members)?;
    let n = ask_first(numbers, nodes, key, node)?;
    Ok(n)
}
