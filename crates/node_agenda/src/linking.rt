// Under what each node stands, by what it hears of.
ghost use Rattle.std.specs.Prelude.{◌↔◌, ◌⊎◌, map, OnOk};
ghost use Rattle.slab.specs.Slab.{get};
ghost use Rattle.defs_match.specs.Laws.{IsIn};
ghost use Rattle.node_table.specs.Nodes.{uppers, inner_of};
ghost use Rattle.node_table.specs.Asked.{asker_of, asker_by};
ghost use Rattle.node_table.specs.Making.{seen_at};
ghost use Rattle.node_agenda.specs.Links.{links_by, links_of, takers_of, takers_by, where_heard};
ghost use Rattle.node_agenda.specs.Turns.{TurnKeyOf, under};

use crate::turns::{Turn, TurnIndex, TurnKey};
use node_table::{Node, NodeKey, Step};
use slab::Slab;
use soar_sym::NoMemory;

/// Puts a turn under the nodes that a step reads beside the parent.
fn link_inner(below: &mut TurnIndex, step: &Step, turn: Turn) -> Result<(), NoMemory>
    ensures { OnOk result ((c : TurnKeyOf) → IsIn c below.new ↔ (IsIn c (map (λ m. under m turn) (inner_of step.now)) ⊎ IsIn c below.old)) }
{
    match step {
        Step::Join(_) => Ok(()),
        Step::Negation(m) => {
            below.add(TurnKey { number: *m, turn })?;
            Ok(())
        }
    }
}

/// Puts a turn under the nodes that one of a key reads.
fn link(below: &mut TurnIndex, key: &NodeKey, turn: Turn) -> Result<(), NoMemory>
    ensures { OnOk result ((c : TurnKeyOf) → IsIn c below.new ↔ (IsIn c (map (λ m. under m turn) (uppers key.now)) ⊎ IsIn c below.old)) }
{
    below.add(TurnKey {
        number: key.parent,
        turn,
    })?;
    link_inner(below, &key.step, turn)?;
    Ok(())
}

/// Puts a turn under the nodes that one of a key reads, if it has one.
pub fn link_key(below: &mut TurnIndex, key: &Option<NodeKey>, turn: Turn) -> Result<(), NoMemory>
    ensures { OnOk result ((c : TurnKeyOf) → IsIn c below.new ↔ (IsIn c (links_by key.now turn) ⊎ IsIn c below.old)) }
{
    match key {
        Some(key) => link(below, key, turn),
        None => Ok(()),
    }
}

/// Puts a turn under the number of a step's pattern memory.
fn note_step(takers: &mut TurnIndex, step: &Step, number: usize, turn: Turn) -> Result<(), NoMemory>
    ensures { OnOk result ((c : TurnKeyOf) → IsIn c takers.new ↔ (IsIn c (takers_by (asker_of number step.now) turn) ⊎ IsIn c takers.old)) }
{
    match step {
        Step::Join(_) => {
            takers.add(TurnKey { number, turn })?;
            Ok(())
        }
        Step::Negation(_) => Ok(()),
    }
}

/// Puts a turn under the number of the pattern memory of a key, if there is one.
pub fn note_key(
    takers: &mut TurnIndex,
    key: &Option<NodeKey>,
    number: usize,
    turn: Turn,
) -> Result<(), NoMemory>
    ensures { OnOk result ((c : TurnKeyOf) → IsIn c takers.new ↔ (IsIn c (takers_by (asker_by number key.now) turn) ⊎ IsIn c takers.old)) }
{
    match key {
        Some(key) => note_step(takers, &key.step, number, turn),
        None => Ok(()),
    }
}

/// Takes a turn from under the nodes that a step reads beside the parent.
fn unlink_inner(below: &mut TurnIndex, step: &Step, turn: Turn)
    ensures { (c : TurnKeyOf) → IsIn c below.new ↔ (IsIn c below.old × (IsIn c (map (λ m. under m turn) (inner_of step.now)) → ⊥)) }
{
    match step {
        Step::Join(_) => {}
        Step::Negation(m) => below.remove(&TurnKey { number: *m, turn }),
    }
}

/// Takes a turn from under the nodes that one of a key reads.
fn unlink(below: &mut TurnIndex, key: &NodeKey, turn: Turn)
    ensures { (c : TurnKeyOf) → IsIn c below.new ↔ (IsIn c below.old × (IsIn c (map (λ m. under m turn) (uppers key.now)) → ⊥)) }
{
    below.remove(&TurnKey {
        number: key.parent,
        turn,
    });
    unlink_inner(below, &key.step, turn);
}

/// Takes a turn from under the nodes that one of a key reads, if it has one.
pub fn unlink_key(below: &mut TurnIndex, key: &Option<NodeKey>, turn: Turn)
    ensures { (c : TurnKeyOf) → IsIn c below.new ↔ (IsIn c below.old × (IsIn c (links_by key.now turn) → ⊥)) }
{
    match key {
        Some(key) => unlink(below, key, turn),
        None => {}
    }
}

/// Does so where it hears of their rows.
#[tactic(auto, using(crate::proofs::LinkLemmas::less_heard, crate::proofs::LinkLemmas::less_unheard))]
fn unlink_heard(below: &mut TurnIndex, key: &Option<NodeKey>, turn: Turn, heard: bool)
    ensures { (c : TurnKeyOf) → IsIn c below.new ↔ (IsIn c below.old × (IsIn c (where_heard heard (links_by key.now turn)) → ⊥)) }
{
    if heard {
        unlink_key(below, key, turn);
    }
}

/// Takes the node of a number from under those that it reads, where it hears of them. It takes no memory.
pub fn unlink_node(nodes: &Slab<Node>, n: usize, below: &mut TurnIndex)
    ensures { (c : TurnKeyOf) → IsIn c below.new ↔ (IsIn c below.old × (IsIn c (links_of (seen_at (get nodes.now) n) n) → ⊥)) }
{
    let Some(node) = nodes.get(n) else {
        return;
    };
    let turn = Turn {
        made: node.made,
        node: n,
    };
    unlink_heard(below, &node.key, turn, node.hears.rows);
}

/// Takes a turn from under the number of a step's pattern memory.
fn forget_step(takers: &mut TurnIndex, step: &Step, number: usize, turn: Turn)
    ensures { (c : TurnKeyOf) → IsIn c takers.new ↔ (IsIn c takers.old × (IsIn c (takers_by (asker_of number step.now) turn) → ⊥)) }
{
    match step {
        Step::Join(_) => takers.remove(&TurnKey { number, turn }),
        Step::Negation(_) => {}
    }
}

/// Takes a turn from under the number of the pattern memory of a key, if there is one.
pub fn forget_key(takers: &mut TurnIndex, key: &Option<NodeKey>, number: usize, turn: Turn)
    ensures { (c : TurnKeyOf) → IsIn c takers.new ↔ (IsIn c takers.old × (IsIn c (takers_by (asker_by number key.now) turn) → ⊥)) }
{
    match key {
        Some(key) => forget_step(takers, &key.step, number, turn),
        None => {}
    }
}

/// Does so where it hears of its elements.
#[tactic(auto, using(crate::proofs::LinkLemmas::less_heard, crate::proofs::LinkLemmas::less_unheard))]
fn forget_heard(
    takers: &mut TurnIndex,
    key: &Option<NodeKey>,
    number: usize,
    turn: Turn,
    heard: bool,
)
    ensures { (c : TurnKeyOf) → IsIn c takers.new ↔ (IsIn c takers.old × (IsIn c (where_heard heard (takers_by (asker_by number key.now) turn)) → ⊥)) }
{
    if heard {
        forget_key(takers, key, number, turn);
    }
}

/// Takes the node of a number from under that of its pattern memory, where it hears of it. It takes no memory.
pub fn forget_taker(nodes: &Slab<Node>, n: usize, takers: &mut TurnIndex)
    ensures { (c : TurnKeyOf) → IsIn c takers.new ↔ (IsIn c takers.old × (IsIn c (takers_of (seen_at (get nodes.now) n) n) → ⊥)) }
{
    let Some(node) = nodes.get(n) else {
        return;
    };
    let turn = Turn {
        made: node.made,
        node: n,
    };
    forget_heard(takers, &node.key, node.alpha, turn, node.hears.elements);
}
