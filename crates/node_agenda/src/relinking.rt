// A node that hears of other than it did.
ghost use Rattle.std.specs.Prelude.{◌≡◌, OnOk, Some};
ghost use Rattle.slab.specs.Slab.{get};
ghost use Rattle.node_table.specs.Nodes.{NodeOf};
ghost use Rattle.node_table.specs.Asked.{asker, asker_by};
ghost use Rattle.node_agenda.specs.Agenda.{turn_of};
ghost use Rattle.node_agenda.specs.Links.{links_by, takers_by, Relinks};

use crate::linking::{forget_key, link_key, note_key, unlink_key};
use crate::turns::{Turn, TurnIndex};
use node_table::{Hears, Node, NodeKey};
use slab::Slab;
use soar_sym::NoMemory;

/// What the node of a number hears of.
pub fn heard(nodes: &Slab<Node>, n: usize) -> Hears
    ensures { (node : NodeOf) → get nodes.now n ≡ Some node → result ≡ node.hears }
{
    match nodes.get(n) {
        Some(node) => node.hears,
        None => Hears {
            rows: false,
            elements: false,
        },
    }
}

/// Puts a turn under the nodes that one of a key reads, where it is to hear of them and did not, or takes it from there.
#[tactic(auto, using(crate::proofs::LinkLemmas::relinks_kept, crate::proofs::LinkLemmas::relinks_more, crate::proofs::LinkLemmas::relinks_less))]
fn relink_rows(
    below: &mut TurnIndex,
    key: &Option<NodeKey>,
    turn: Turn,
    was: bool,
    now: bool,
) -> Result<(), NoMemory>
    ensures { OnOk result (Relinks was now (links_by key.now turn) below.old below.new) }
{
    if was {
        if now {
            return Ok(());
        }
        unlink_key(below, key, turn);
        return Ok(());
    }
    if now {
        link_key(below, key, turn)?;
        return Ok(());
    }
    Ok(())
}

/// The same under the number of a pattern memory.
#[tactic(auto, using(crate::proofs::LinkLemmas::relinks_kept, crate::proofs::LinkLemmas::relinks_more, crate::proofs::LinkLemmas::relinks_less))]
fn relink_elements(
    takers: &mut TurnIndex,
    key: &Option<NodeKey>,
    number: usize,
    turn: Turn,
    was: bool,
    now: bool,
) -> Result<(), NoMemory>
    ensures { OnOk result (Relinks was now (takers_by (asker_by number key.now) turn) takers.old takers.new) }
{
    if was {
        if now {
            return Ok(());
        }
        forget_key(takers, key, number, turn);
        return Ok(());
    }
    if now {
        note_key(takers, key, number, turn)?;
        return Ok(());
    }
    Ok(())
}

/// Puts the node of a number under what it hears of and did not, and takes it from under what it hears of no longer.
pub fn relink(
    nodes: &Slab<Node>,
    n: usize,
    was: Hears,
    below: &mut TurnIndex,
    takers: &mut TurnIndex,
) -> Result<(), NoMemory>
    ensures links { OnOk result ((node : NodeOf) → get nodes.now n ≡ Some node → Relinks was.rows node.hears.rows (links_by node.key (turn_of node n)) below.old below.new) }
    ensures takers { OnOk result ((node : NodeOf) → get nodes.now n ≡ Some node → Relinks was.elements node.hears.elements (takers_by (asker node) (turn_of node n)) takers.old takers.new) }
{
    let Some(node) = nodes.get(n) else {
        return Ok(());
    };
    let turn = Turn {
        made: node.made,
        node: n,
    };
    relink_rows(below, &node.key, turn, was.rows, node.hears.rows)?;
    relink_elements(
        takers,
        &node.key,
        node.alpha,
        turn,
        was.elements,
        node.hears.elements,
    )?;
    Ok(())
}
