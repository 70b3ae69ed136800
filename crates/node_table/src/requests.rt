// Requests for nodes: the first makes a node, and with the last it goes.
ghost use Rattle.std.specs.Prelude.{◌≡◌, ◌-◌, OnOk, OnErr, IfOk, ℕ, ◌==◌, if◌then◌else◌, Some, None};
ghost use Rattle.std.specs.Option.{option_map};
ghost use Rattle.std.specs.Ordering.{is_eq};
ghost use Rattle.std.specs.BTreeMap as numbers_of;
ghost use Rattle.slab.specs.Slab.{get};
ghost use Rattle.node_table.specs.Nodes.{key_cmp, key_at, IsNumbered, with_requests, one_more, one_less, KeyOf};

use crate::node::{Node, NodeKey};
use slab::Slab;
use soar_sym::NoMemory;
use std::collections::BTreeMap;

/// Writes the count of requests of a number.
fn set_requests(nodes: &mut Slab<Node>, n: usize, requests: u64)
    ensures { (k : ℕ) → get nodes.new k ≡ (if k == n then option_map (with_requests requests) (get nodes.old k) else get nodes.old k) }
{
    if let Some(node) = nodes.get_mut(n) {
        node.requests = requests;
    }
}

/// One request more for a node that has some.
pub fn ask_again(nodes: &mut Slab<Node>, n: usize) -> Result<(), NoMemory>
    ensures ok { OnOk result ((k : ℕ) → get nodes.new k ≡ (if k == n then option_map one_more (get nodes.old k) else get nodes.old k)) }
    ensures err { OnErr result (nodes.new ≡ nodes.old) }
{
    let Some(node) = nodes.get(n) else {
        return Ok(());
    };
    let Some(requests) = node.requests.checked_add(1) else {
        return Err(NoMemory);
    };
    set_requests(nodes, n, requests);
    Ok(())
}

/// Notes the number of a key.
fn put_number(
    numbers: &mut BTreeMap<NodeKey, usize>,
    key: NodeKey,
    n: usize,
) -> Result<(), NoMemory>
    ensures ok { OnOk result ((k : KeyOf) → numbers_of.get key_cmp numbers.new k ≡ (if is_eq (key_cmp key k) then Some n else numbers_of.get key_cmp numbers.old k)) }
    ensures err { OnErr result (numbers.new.entries ≡ numbers.old.entries) }
{
    numbers.insert(key, n)?;
    Ok(())
}

/// The first request for a key, which gets a number. Want of memory changes nothing.
pub fn ask_first(
    numbers: &mut BTreeMap<NodeKey, usize>,
    nodes: &mut Slab<Node>,
    key: NodeKey,
    node: Node,
) -> Result<usize, NoMemory>
    requires numbered { IsNumbered (numbers_of.get key_cmp numbers.old) (key_at (get nodes.old)) }
    requires new { numbers_of.get key_cmp numbers.old key ≡ None }
    requires own { node.key ≡ Some key }
    ensures vacant { IfOk result (λ n. get nodes.old n ≡ None) }
    ensures nodes { IfOk result (λ n. (k : ℕ) → get nodes.new k ≡ (if k == n then Some node else get nodes.old k)) }
    ensures err { OnErr result ((k : ℕ) → get nodes.new k ≡ get nodes.old k) }
    ensures numbered { IsNumbered (numbers_of.get key_cmp numbers.new) (key_at (get nodes.new)) }
{
    let n = nodes.insert(node)?;
    match put_number(numbers, key, n) {
        Ok(()) => Ok(n),
        Err(error) => {
            nodes.try_remove(n);
            Err(error)
        }
    }
}

/// Takes a node and its key out.
pub fn remove_node(numbers: &mut BTreeMap<NodeKey, usize>, nodes: &mut Slab<Node>, n: usize)
    requires numbered { IsNumbered (numbers_of.get key_cmp numbers.old) (key_at (get nodes.old)) }
    ensures nodes { (k : ℕ) → get nodes.new k ≡ (if k == n then None else get nodes.old k) }
    ensures numbered { IsNumbered (numbers_of.get key_cmp numbers.new) (key_at (get nodes.new)) }
{
    let Some(node) = nodes.try_remove(n) else {
        return;
    };
    let Node { key, .. } = node;
    if let Some(key) = key {
        numbers.remove(&key);
    }
}

/// One request less; with the last the node goes, and its key.
pub fn release_at(numbers: &mut BTreeMap<NodeKey, usize>, nodes: &mut Slab<Node>, n: usize)
    requires numbered { IsNumbered (numbers_of.get key_cmp numbers.old) (key_at (get nodes.old)) }
    ensures nodes { (k : ℕ) → get nodes.new k ≡ (if k == n then one_less (get nodes.old k) else get nodes.old k) }
    ensures numbered { IsNumbered (numbers_of.get key_cmp numbers.new) (key_at (get nodes.new)) }
{
    let Some(node) = nodes.get(n) else {
        return;
    };
    let requests = node.requests;
    if requests > 1 {
        set_requests(nodes, n, requests - 1);
    } else {
        remove_node(numbers, nodes, n);
    }
}
