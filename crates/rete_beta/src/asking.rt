// Requests for nodes.
ghost use Rattle.std.specs.Prelude.{◌≡◌, ℕ, Some, None, IsSome, OnOk, IfOk};
ghost use Rattle.std.specs.BTreeMap as numbers_of;
ghost use Rattle.slab.specs.Slab.{get};
ghost use Rattle.defs_match.specs.Laws.{IsIn};
ghost use Rattle.node_table.specs.declared.node.Step.TheVariants.{Join, Negation};
ghost use Rattle.node_table.specs.Nodes.{key_cmp, key_at, inner_of};
ghost use Rattle.rete_beta.specs.Joins.{Asks};
ghost use Rattle.rete_beta.specs.Networks.{IsNetwork, asked_in, key_made};

use crate::network::Network;
use node_agenda::relink;
use node_table::{Hears, NodeKey, Step, ask_again, make};
use soar_rule::Pattern;
use soar_sym::NoMemory;
use std::alloc::Global;
use std::collections::BTreeMap;

/// The number of a key, where it has one.
fn find(numbers: &BTreeMap<NodeKey, usize>, key: &NodeKey) -> Option<usize>
    ensures { result ≡ numbers_of.get key_cmp numbers.now key.now }
{
    numbers.get(key).copied()
}

/// One request more for a live node.
fn count(net: &mut Network, n: usize, key: &NodeKey) -> Result<(), NoMemory>
    requires network { IsNetwork net.old }
    requires keyed { key_at (get net.old.nodes) n ≡ Some key.now }
    ensures network { OnOk result (IsNetwork net.new) }
    ensures asks { OnOk result (Asks (asked_in (get net.old.nodes)) (asked_in (get net.new.nodes)) key.now n) }
    ensures elements { OnOk result (net.new.alpha.elements ≡ net.old.alpha.elements) }
{
    ask_again(&mut net.nodes, n)?;
    Ok(())
}

/// A node for a key that has none.
fn add(alloc: Global, net: &mut Network, key: NodeKey) -> Result<usize, NoMemory>
    requires network { IsNetwork net.old }
    requires new { numbers_of.get key_cmp net.old.numbers key ≡ None }
    requires parent { IsSome (get net.old.nodes key.parent) }
    requires inner { (m : ℕ) → IsIn m (inner_of key.step) → IsSome (get net.old.nodes m) }
    ensures network { OnOk result (IsNetwork net.new) }
    ensures asks { IfOk result (λ n. Asks (asked_in (get net.old.nodes)) (asked_in (get net.new.nodes)) key n) }
    ensures elements { OnOk result (net.new.alpha.elements ≡ net.old.alpha.elements) }
{
    let Some(next) = net.made.checked_add(1) else {
        return Err(NoMemory);
    };
    let n = make(
        alloc,
        &mut net.numbers,
        &mut net.nodes,
        &mut net.alpha,
        &net.index,
        key,
        net.made,
    )?;
    net.made = next;
    let nothing = Hears {
        rows: false,
        elements: false,
    };
    relink(&net.nodes, n, nothing, &mut net.below, &mut net.takers)?;
    Ok(n)
}

/// One request more for a key.
fn ask(alloc: Global, net: &mut Network, key: NodeKey) -> Result<usize, NoMemory>
    requires network { IsNetwork net.old }
    requires parent { IsSome (get net.old.nodes key.parent) }
    requires inner { (m : ℕ) → IsIn m (inner_of key.step) → IsSome (get net.old.nodes m) }
    ensures network { OnOk result (IsNetwork net.new) }
    ensures asks { IfOk result (λ n. Asks (asked_in (get net.old.nodes)) (asked_in (get net.new.nodes)) key n) }
    ensures elements { OnOk result (net.new.alpha.elements ≡ net.old.alpha.elements) }
{
    match find(&net.numbers, &key) {
        Some(n) => {
            count(net, n, &key)?;
            Ok(n)
        }
        None => add(alloc, net, key),
    }
}

/// One request more for the join of a parent and a pattern.
pub fn ask_join(
    alloc: Global,
    net: &mut Network,
    parent: usize,
    pattern: &Pattern,
) -> Result<usize, NoMemory>
    requires network { IsNetwork net.old }
    requires parent { IsSome (get net.old.nodes parent) }
    ensures network { OnOk result (IsNetwork net.new) }
    ensures asks { IfOk result (λ n. Asks (asked_in (get net.old.nodes)) (asked_in (get net.new.nodes)) (key_made parent (Join pattern.now)) n) }
    ensures elements { OnOk result (net.new.alpha.elements ≡ net.old.alpha.elements) }
{
    let copy = pattern.copy(alloc)?;
    let step = Step::Join(copy);
    ask(alloc, net, NodeKey { parent, step })
}

/// One request more for the negation of a node behind a parent.
pub fn ask_negation(
    alloc: Global,
    net: &mut Network,
    parent: usize,
    inner: usize,
) -> Result<usize, NoMemory>
    requires network { IsNetwork net.old }
    requires parent { IsSome (get net.old.nodes parent) }
    requires inner { IsSome (get net.old.nodes inner) }
    ensures network { OnOk result (IsNetwork net.new) }
    ensures asks { IfOk result (λ n. Asks (asked_in (get net.old.nodes)) (asked_in (get net.new.nodes)) (key_made parent (Negation inner)) n) }
    ensures elements { OnOk result (net.new.alpha.elements ≡ net.old.alpha.elements) }
{
    let step = Step::Negation(inner);
    ask(alloc, net, NodeKey { parent, step })
}
