// Requests that are taken back.
ghost use Rattle.std.specs.Prelude.{◌≡◌, true, false};
ghost use Rattle.slab.specs.Slab.{get};
ghost use Rattle.rete_beta.specs.Joins.{CanDrop, Drops};
ghost use Rattle.rete_beta.specs.Networks.{IsNetwork, asked_in, has_more};

use crate::network::Network;
use node_agenda::{forget_taker, unlink_node};
use node_table::{Node, drop_node};
use slab::Slab;

/// Whether more than one request stands for a node.
fn has_more(nodes: &Slab<Node>, n: usize) -> bool
    ensures { result ≡ has_more (get nodes.now n) }
{
    match nodes.get(n) {
        Some(node) => node.requests > 1,
        None => false,
    }
}

/// Takes back one request of several.
fn drop_one(net: &mut Network, n: usize)
    requires network { IsNetwork net.old }
    requires can { CanDrop (asked_in (get net.old.nodes)) n }
    requires more { has_more (get net.old.nodes n) ≡ true }
    ensures network { IsNetwork net.new }
    ensures drops { Drops (asked_in (get net.old.nodes)) (asked_in (get net.new.nodes)) n }
    ensures elements { net.new.alpha.elements ≡ net.old.alpha.elements }
{
    drop_node(&mut net.numbers, &mut net.nodes, &mut net.alpha, n);
}

/// Takes back the last request, and the node out.
fn drop_last(net: &mut Network, n: usize)
    requires network { IsNetwork net.old }
    requires can { CanDrop (asked_in (get net.old.nodes)) n }
    requires last { has_more (get net.old.nodes n) ≡ false }
    ensures network { IsNetwork net.new }
    ensures drops { Drops (asked_in (get net.old.nodes)) (asked_in (get net.new.nodes)) n }
    ensures elements { net.new.alpha.elements ≡ net.old.alpha.elements }
{
    unlink_node(&net.nodes, n, &mut net.below);
    forget_taker(&net.nodes, n, &mut net.takers);
    drop_node(&mut net.numbers, &mut net.nodes, &mut net.alpha, n);
}

/// Takes one request for a node back. With the last it goes. It takes no memory.
pub fn drop_at(net: &mut Network, n: usize)
    requires network { IsNetwork net.old }
    requires can { CanDrop (asked_in (get net.old.nodes)) n }
    ensures network { IsNetwork net.new }
    ensures drops { Drops (asked_in (get net.old.nodes)) (asked_in (get net.new.nodes)) n }
    ensures elements { net.new.alpha.elements ≡ net.old.alpha.elements }
{
    if has_more(&net.nodes, n) {
        drop_one(net, n);
    } else {
        drop_last(net, n);
    }
}
