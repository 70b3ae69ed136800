// Grounds while they are put in order.
ghost use Rattle.std.specs.Prelude.{◌≡◌, not, ◌==◌, filter, IfOk, OnOk};
ghost use Rattle.condition_order.specs.Orders.{AreElementsKnown};
ghost use Rattle.condition_order.specs.Steps.{first_order, order_seen};
ghost use Rattle.defs_soar.specs.ConditionOrder.{with_ground};

use crate::places::add_places;
use crate::states::states_of;
use soar_sym::{NoMemory, Sym, SymTable};
use soar_wm::Element;
use std::alloc::Global;

/// Grounds in order so far, those that are left, by tag, and the identifiers that have a variable.
#[derive(Drop)]
pub(crate) struct Order {
    pub(crate) taken: Vec<Element>,
    pub(crate) left: Vec<Element>,
    pub(crate) places: Vec<Sym>,
}

/// Before the first ground is taken: states have variables.
pub(crate) fn first_order(
    alloc: Global,
    table: &SymTable,
    grounds: &[Element],
) -> Result<Order, NoMemory>
    requires { AreElementsKnown table.now grounds.now }
    ensures { IfOk result (λ order. order_seen order ≡ first_order table.now grounds.now) }
{
    let left = Vec::from_slice(alloc, grounds)?;
    let places = states_of(alloc, table, grounds)?;
    Ok(Order {
        taken: Vec::new(alloc),
        left,
        places,
    })
}

/// Takes a ground, and gives its identifiers variables.
pub(crate) fn take(order: &mut Order, element: Element) -> Result<(), NoMemory>
    ensures { OnOk result (order_seen order.new ≡ with_ground (order_seen order.old) element) }
{
    order.taken.push(element)?;
    remove_tag(&mut order.left, element.tag);
    add_places(&mut order.places, element)?;
    Ok(())
}

fn remove_tag(elements: &mut Vec<Element>, tag: u32)
    ensures { elements.new.items ≡ filter (λ e. not (e.tag == tag)) elements.old.items }
{
    elements.retain(|element| element.tag != tag);
}
