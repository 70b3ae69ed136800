// Elements that come and go.
ghost use Rattle.std.specs.Prelude.{◌≡◌, ◌↔◌, ◌⊎◌, false, Some, None, List as ListOf, OnOk, IfOk};
ghost use Rattle.std.specs.List.{list_any};
ghost use Rattle.slab.specs.Slab.{get};
ghost use Rattle.soar_wm.specs.WorkingMemory.{has_tag, without_tag};
ghost use Rattle.soar_wm.specs.declared.element.Element.{Element as ElementOf};
ghost use Rattle.defs_match.specs.Contents.{with_element, HasTag};
ghost use Rattle.defs_match.specs.Laws.{IsIn};
ghost use Rattle.node_memory.specs.Changes.{ElementsChange};
ghost use Rattle.node_memory.specs.Held.{listed};
ghost use Rattle.node_table.specs.Content.{AllHold};
ghost use Rattle.node_agenda.specs.Agenda.{AreServed, AllTell};
ghost use Rattle.node_agenda.specs.Turns.{TurnOf};
ghost use Rattle.rete_beta.specs.Networks.{IsNetwork, IsFirst, IsBehind, IsOneOf, IsUnderAny, SameAsked};
ghost use Rattle.rete_beta.specs.Told.{IsToldIn};

use crate::network::Network;
use defs_match::negation_keeps;
use node_agenda::{Turn, TurnIndex, add_under, settle};
use rete_alpha::Alpha;
use soar_sym::{List, NoMemory};
use soar_wm::Element;
use std::alloc::Global;
use std::collections::BTreeSet;

/// Puts the turns under these numbers on an agenda.
fn add_all_under(
    alloc: Global,
    agenda: &mut BTreeSet<Turn>,
    takers: &TurnIndex,
    numbers: &[usize],
) -> Result<(), NoMemory>
    ensures { OnOk result ((t : TurnOf) → IsIn t agenda.new.keys ↔ (IsUnderAny numbers.now takers.now t ⊎ IsIn t agenda.old.keys)) }
{
    'numbers: for number in numbers {
        add_under(alloc, agenda, takers, *number)?;
    }
    Ok(())
}

/// The joins whose patterns take an element.
fn first_agenda(
    alloc: Global,
    alpha: &Alpha,
    takers: &TurnIndex,
    e: &Element,
) -> Result<BTreeSet<Turn>, NoMemory>
    ensures { IfOk result (λ agenda. IsFirst alpha.now takers.now e.now agenda.keys) }
{
    let numbers = alpha.accepts(alloc, e)?;
    let mut agenda = BTreeSet::new(alloc);
    add_all_under(alloc, &mut agenda, takers, numbers.as_slice())?;
    Ok(agenda)
}

/// Serves the nodes that a change of one element reaches, and answers which.
fn react(
    alloc: Global,
    net: &mut Network,
    e: &Element,
    come: Option<Element>,
    goes: Option<Element>,
) -> Result<List<usize>, NoMemory>
    requires behind { IsBehind net.old come goes }
    requires one { IsOneOf e.now come goes }
    ensures network { OnOk result (IsNetwork net.new) }
    ensures nodes { OnOk result (SameAsked (get net.old.nodes) (get net.new.nodes)) }
    ensures served { IfOk result (λ served. AreServed (get net.new.nodes) net.old.stamp served) }
    ensures tell { OnOk result ((w : ListOf ElementOf) → AllHold (get net.old.nodes) w → ElementsChange w net.old.alpha.elements (listed come) (listed goes) → AllTell (get net.new.nodes) net.old.stamp w net.old.alpha.elements) }
    ensures elements { OnOk result (net.new.alpha.elements ≡ net.old.alpha.elements) }
{
    let stamp = net.stamp;
    let Some(next) = stamp.checked_add(1) else {
        return Err(NoMemory);
    };
    let mut agenda = first_agenda(alloc, &net.alpha, &net.takers, e)?;
    let served = settle(
        alloc,
        &mut net.nodes,
        &mut agenda,
        &mut net.below,
        &mut net.takers,
        &net.alpha,
        stamp,
        net.made,
        &net.index,
        come,
        goes,
    )?;
    net.stamp = next;
    Ok(served)
}

/// An element comes, whose tag is new. It answers the nodes that this reached.
pub fn plus(alloc: Global, net: &mut Network, e: Element) -> Result<List<usize>, NoMemory>
    requires network { IsNetwork net.old }
    requires new { list_any (has_tag e.tag) net.old.alpha.elements ≡ false }
    ensures network { OnOk result (IsNetwork net.new) }
    ensures nodes { OnOk result (SameAsked (get net.old.nodes) (get net.new.nodes)) }
    ensures elements { OnOk result (net.new.alpha.elements ≡ with_element net.old.alpha.elements e) }
    ensures told { IfOk result (λ served. IsToldIn (get net.old.nodes) (get net.new.nodes) net.old.alpha.elements net.new.alpha.elements served) }
{
    negation_keeps();
    net.alpha.add(e)?;
    net.alpha.law();
    net.index.add(e)?;
    let served = react(alloc, net, &e, Some(e), None)?;
    Ok(served)
}

/// The element of a tag goes. It answers the nodes that this reached.
pub fn minus(alloc: Global, net: &mut Network, tag: u32) -> Result<List<usize>, NoMemory>
    requires network { IsNetwork net.old }
    requires there { HasTag net.old.alpha.elements tag }
    ensures network { OnOk result (IsNetwork net.new) }
    ensures nodes { OnOk result (SameAsked (get net.old.nodes) (get net.new.nodes)) }
    ensures elements { OnOk result (net.new.alpha.elements ≡ without_tag tag net.old.alpha.elements) }
    ensures told { IfOk result (λ served. IsToldIn (get net.old.nodes) (get net.new.nodes) net.old.alpha.elements net.new.alpha.elements served) }
{
    negation_keeps();
    let Some(e) = net.alpha.element(tag) else {
        return Err(NoMemory);
    };
    net.alpha.remove(tag);
    net.alpha.law();
    net.index.remove(&e);
    let served = react(alloc, net, &e, None, Some(e))?;
    Ok(served)
}
