// Orders for the production of a name.
ghost use Rattle.std.specs.Prelude.{◌≡◌, map, option_map, IfSome};
ghost use Rattle.soar_sym.specs.Words.{IsKnown};
ghost use Rattle.soar_sym.specs.declared.symbol.Sym.{Sym as SymOf};
ghost use Rattle.defs_run.specs.CommandForms.{matches_order, name_order};
ghost use Rattle.defs_run.specs.Orders.{Order as OrderOf, excise, explain, matches_of};
ghost use Rattle.command_orders.specs.Asked.{order_seen};
ghost use Rattle.command_orders.specs.Behind.{AreArgumentsKnown, argument_seen};
ghost use Rattle.command_orders.specs.Known.{IsOrderRead};

use crate::argument::Argument;
use crate::operand::name_of;
use defs_run::Order;
use soar_sym::{Sym, SymTable};

/// The order to take a production away.
pub fn excise_order(table: &SymTable, arguments: &[Argument]) -> Option<Order>
    requires { AreArgumentsKnown table.now arguments.now }
    ensures order { option_map order_seen result ≡ name_order table.now excise (map (argument_seen table.now) arguments.now) }
    ensures read { IsOrderRead table.now result }
{
    match name_in(table, arguments) {
        Some(name) => Some(Order::Excise(name)),
        None => None,
    }
}

/// The order to show the explanation of a learned production.
pub fn explain_order(table: &SymTable, arguments: &[Argument]) -> Option<Order>
    requires { AreArgumentsKnown table.now arguments.now }
    ensures order { option_map order_seen result ≡ name_order table.now explain (map (argument_seen table.now) arguments.now) }
    ensures read { IsOrderRead table.now result }
{
    match name_in(table, arguments) {
        Some(name) => Some(Order::Explain(name)),
        None => None,
    }
}

/// The order to show the matches of a production, or all of them.
pub fn matches_order(table: &SymTable, arguments: &[Argument]) -> Option<Order>
    requires { AreArgumentsKnown table.now arguments.now }
    ensures order { option_map order_seen result ≡ matches_order table.now (map (argument_seen table.now) arguments.now) }
    ensures read { IsOrderRead table.now result }
{
    match arguments.first() {
        Some(_) => named_matches_order(table, arguments),
        None => Some(Order::Matches),
    }
}

fn named_matches_order(table: &SymTable, arguments: &[Argument]) -> Option<Order>
    requires { AreArgumentsKnown table.now arguments.now }
    ensures order { option_map order_seen result ≡ name_order table.now matches_of (map (argument_seen table.now) arguments.now) }
    ensures read { IsOrderRead table.now result }
{
    match name_in(table, arguments) {
        Some(name) => Some(Order::MatchesOf(name)),
        None => None,
    }
}

/// The name, where it stands alone.
fn name_in(table: &SymTable, arguments: &[Argument]) -> Option<Sym>
    requires { AreArgumentsKnown table.now arguments.now }
    ensures name { (ask : SymOf → OrderOf) → option_map ask result ≡ name_order table.now ask (map (argument_seen table.now) arguments.now) }
    ensures known { IfSome result (λ name. IsKnown table.now name) }
{
    match arguments {
        [argument] => name_of(table, *argument),
        _ => None,
    }
}
