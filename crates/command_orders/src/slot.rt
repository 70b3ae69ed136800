// The order for the preferences of a slot.
ghost use Rattle.std.specs.Prelude.{◌≡◌, [], ◌∷◌, map, option_map, IfOk};
ghost use Rattle.defs_run.specs.CommandForms.{slot_order};
ghost use Rattle.command_orders.specs.Asked.{order_seen};
ghost use Rattle.command_orders.specs.Behind.{AreArgumentsKnown, IsArgumentKnown, argument_seen};
ghost use Rattle.command_orders.specs.Known.{IsOrderRead};

use crate::argument::Argument;
use crate::operand::{attribute_of, id_of};
use defs_run::{Operand, Order};
use soar_sym::{NoMemory, SymTable};
use std::alloc::Global;

/// The order to show the preferences for an attribute of an identifier.
pub fn slot_order(
    alloc: Global,
    table: &SymTable,
    arguments: &[Argument],
) -> Result<Option<Order>, NoMemory>
    requires { AreArgumentsKnown table.now arguments.now }
    ensures order { IfOk result (λ order. option_map order_seen order ≡ slot_order table.now (map (argument_seen table.now) arguments.now)) }
    ensures read { IfOk result (λ order. IsOrderRead table.now order) }
{
    match arguments {
        [id, attr] => preferences_order(alloc, table, *id, *attr),
        _ => Ok(None),
    }
}

fn preferences_order(
    alloc: Global,
    table: &SymTable,
    id: Argument,
    attr: Argument,
) -> Result<Option<Order>, NoMemory>
    requires id { IsArgumentKnown table.now id }
    requires attr { IsArgumentKnown table.now attr }
    ensures order { IfOk result (λ order. option_map order_seen order
        ≡ slot_order table.now (argument_seen table.now id ∷ argument_seen table.now attr ∷ [])) }
    ensures read { IfOk result (λ order. IsOrderRead table.now order) }
{
    match (id_of(alloc, table, id)?, attribute_of(table, attr)) {
        (Some(id), Some(attr)) => Ok(Some(Order::Preferences(id, Operand::Symbol(attr)))),
        _ => Ok(None),
    }
}
