ghost use Rattle.std.specs.Prelude.{◌≡◌, false, IfOk, OnOk};
ghost use Rattle.condition_order.specs.Orders.{AreElementsKnown, ordered_seen};
ghost use Rattle.condition_order.specs.Steps.{order_seen};
ghost use Rattle.defs_soar.specs.ConditionOrder.{one_ground_more, ordered_grounds};
ghost use Rattle.soar_rule.specs.Repeat.{repeated};

use crate::order::{Order, first_order, take};
use crate::reaching::least_reached;
use soar_sym::{List, NoMemory, Sym, SymTable};
use soar_wm::Element;
use std::alloc::Global;

/// Grounds in the order of a learned rule's conditions, those that the order does not reach, by tag, and the
/// identifiers that have a variable, in the order of their variables.
#[derive(Drop)]
pub struct GroundOrder {
    pub taken: List<Element>,
    pub left: List<Element>,
    pub places: List<Sym>,
}

/// Puts grounds in the order of conditions (Soar manual, chapter 4, chunking; the order is this engine's).
pub fn ordered(
    alloc: Global,
    table: &SymTable,
    grounds: &List<Element>,
) -> Result<GroundOrder, NoMemory>
    requires { AreElementsKnown table.now grounds.now }
    ensures { IfOk result (λ order. ordered_seen order ≡ ordered_grounds table.now grounds.now) }
{
    let mut order = first_order(alloc, table, grounds.as_slice())?;
    take_all(table, &mut order, grounds.len())?;
    Ok(finished(order))
}

/// Takes one ground after the other, so many at most.
fn take_all(table: &SymTable, order: &mut Order, rounds: usize) -> Result<(), NoMemory>
    requires { AreElementsKnown table.now order.old.left.items }
    ensures { OnOk result (order_seen order.new ≡ repeated rounds (one_ground_more table.now) (order_seen order.old)) }
{
    'rounds: for _ in 0..rounds {
        if !take_next(table, order)? {
            return Ok(());
        }
    }
    Ok(())
}

/// Takes the least ground whose identifier has a variable, and answers whether there was one.
fn take_next(table: &SymTable, order: &mut Order) -> Result<bool, NoMemory>
    requires { AreElementsKnown table.now order.old.left.items }
    ensures next { OnOk result (order_seen order.new ≡ one_ground_more table.now (order_seen order.old)) }
    ensures done { IfOk result (λ more. more ≡ false → order_seen order.new ≡ order_seen order.old) }
{
    match least_reached(table, order.places.as_slice(), order.left.as_slice()) {
        Some(least) => {
            take(order, least.element)?;
            Ok(true)
        }
        None => Ok(false),
    }
}

fn finished(order: Order) -> GroundOrder
    ensures { ordered_seen result ≡ order_seen order }
{
    let Order {
        taken,
        left,
        places,
    } = order;
    GroundOrder {
        taken: List::from_vec(taken),
        left: List::from_vec(left),
        places: List::from_vec(places),
    }
}
