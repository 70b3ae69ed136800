// The nodes that a change reaches, served in the order in which they were made.
ghost use Rattle.std.specs.Prelude.{◌≡◌, ◌↔◌, ◌⊎◌, ◌+◌, false, List as ListOf, OnOk, IfOk};
ghost use Rattle.slab.specs.Slab.{get};
ghost use Rattle.defs_match.specs.Laws.{IsIn, ElementsDiffer};
ghost use Rattle.soar_wm.specs.declared.element.Element.{Element as ElementOf};
ghost use Rattle.node_memory.specs.Changes.{ElementsChange};
ghost use Rattle.node_memory.specs.Held.{listed, SameElements};
ghost use Rattle.node_table.specs.Content.{IsTable, Stands, AllHold};
ghost use Rattle.node_table.specs.Hearing.{AllAsk, AllHear};
ghost use Rattle.node_agenda.specs.Turns.{TurnOf, under, with_turn, with_turns};
ghost use Rattle.node_agenda.specs.Agenda.{is_changed, GoesOn, IsLoop, Settles, AreServed, AllTell};
ghost use Rattle.node_agenda.specs.Links.{AreLinked};

use crate::relinking::{heard, relink};
use crate::turns::{Turn, TurnIndex};
use node_memory::ElementIndex;
use node_table::{Node, serve};
use rete_alpha::Alpha;
use slab::Slab;
use soar_sym::{List, NoMemory};
use soar_wm::Element;
use std::alloc::Global;
use std::collections::BTreeSet;

/// Puts a turn on an agenda.
fn add_turn(agenda: &mut BTreeSet<Turn>, turn: Turn) -> Result<(), NoMemory>
    ensures { OnOk result (agenda.new.keys ≡ with_turn turn agenda.old.keys) }
{
    agenda.insert(turn)?;
    Ok(())
}

/// Puts turns on an agenda.
fn add_turns(agenda: &mut BTreeSet<Turn>, turns: &[Turn]) -> Result<(), NoMemory>
    ensures { OnOk result (agenda.new.keys ≡ with_turns turns.now agenda.old.keys) }
{
    'turns: for turn in turns {
        add_turn(agenda, *turn)?;
    }
    Ok(())
}

/// Puts the turns under a number on an agenda.
pub fn add_under(
    alloc: Global,
    agenda: &mut BTreeSet<Turn>,
    index: &TurnIndex,
    number: usize,
) -> Result<(), NoMemory>
    ensures { OnOk result ((t : TurnOf) → IsIn t agenda.new.keys ↔ (IsIn (under number t) index.now ⊎ IsIn t agenda.old.keys)) }
{
    let turns = index.under(alloc, number)?;
    add_turns(agenda, turns.as_slice())?;
    Ok(())
}

/// Whether a change changed the rows of a node.
fn is_changed(node: &Node) -> bool
    ensures { result ≡ is_changed node.now }
{
    !(node.come.is_empty() && node.gone.is_empty())
}

/// Puts the nodes that read a node on the agenda where its rows have changed.
fn go_on(
    alloc: Global,
    agenda: &mut BTreeSet<Turn>,
    nodes: &Slab<Node>,
    n: usize,
    below: &TurnIndex,
) -> Result<(), NoMemory>
    ensures { OnOk result (GoesOn (get nodes.now n) n below.now agenda.old.keys agenda.new.keys) }
{
    let Some(node) = nodes.get(n) else {
        return Ok(());
    };
    if !is_changed(node) {
        return Ok(());
    }
    add_under(alloc, agenda, below, n)?;
    Ok(())
}

/// Serves the nodes that a change reaches, and answers which. At the end each node holds its rows over the elements after the change, served or not,
/// and hears of what may change them from then on.
pub fn settle(
    alloc: Global,
    nodes: &mut Slab<Node>,
    agenda: &mut BTreeSet<Turn>,
    below: &mut TurnIndex,
    takers: &mut TurnIndex,
    alpha: &Alpha,
    stamp: u64,
    end: u64,
    index: &ElementIndex,
    come: Option<Element>,
    goes: Option<Element>,
) -> Result<List<usize>, NoMemory>
    requires loops { IsLoop (get nodes.old) agenda.old.keys below.old alpha.now.elements stamp 0 end come goes }
    requires works { alpha.now.failed ≡ false }
    requires asked { AllAsk (get nodes.old) alpha.now }
    requires same { SameElements index.now alpha.now.elements }
    requires linked { AreLinked (get nodes.old) below.old takers.old }
    ensures table { OnOk result (IsTable (get nodes.new) end) }
    ensures linked { OnOk result (AreLinked (get nodes.new) below.new takers.new) }
    ensures hear { OnOk result (AllHear (get nodes.new) alpha.now.elements) }
    ensures settles { OnOk result (Settles (get nodes.old) (get nodes.new) stamp) }
    ensures served { IfOk result (λ served. AreServed (get nodes.new) stamp served) }
    ensures tell { OnOk result ((w0 w1 : ListOf ElementOf) → Stands (get nodes.old) stamp w0 w1 → ElementsChange w0 w1 (listed come) (listed goes) → SameElements index.now w1 → ElementsDiffer w1 → AllTell (get nodes.new) stamp w0 w1) }
    ensures hold { OnOk result ((w0 w1 : ListOf ElementOf) → Stands (get nodes.old) stamp w0 w1 → ElementsChange w0 w1 (listed come) (listed goes) → SameElements index.now w1 → ElementsDiffer w1 → AllHold (get nodes.new) w1) }
{
    let mut floor: u64 = 0;
    let mut served = List::new(alloc);
    'turns: while let Some(turn) = agenda.pop_first() {
        let was = heard(nodes, turn.node);
        serve(alloc, nodes, alpha, turn.node, stamp, index, come, goes)?;
        go_on(alloc, agenda, nodes, turn.node, below)?;
        relink(nodes, turn.node, was, below, takers)?;
        served.push(turn.node)?;
        floor = turn.made + 1;
    }
    Ok(served)
}
