// Orders with a number.
ghost use Rattle.std.specs.Prelude.{◌≡◌, ◌≤◌, ℕ, map, option_map, IfSome};
ghost use Rattle.soar_sym.specs.Words.{Texts};
ghost use Rattle.defs_run.specs.CommandForms.{number_order, tag_order};
ghost use Rattle.defs_run.specs.Orders.{Order as OrderOf, max_elaborations, run_cycles, watch};
ghost use Rattle.command_orders.specs.Asked.{order_seen};
ghost use Rattle.command_orders.specs.Behind.{argument_seen};
ghost use Rattle.command_orders.specs.Known.{IsOrderRead};

use crate::argument::Argument;
use defs_run::Order;
use soar_sym::SymTable;

/// The most cycles of one command.
const MOST_CYCLES: u64 = 1_000_000;

/// The most waves of a phase.
const MOST_WAVES: u64 = 10_000;

/// The highest level of what is told.
const MOST_LEVEL: u64 = 5;

/// The order to run cycles.
pub fn run_order(table: &SymTable, arguments: &[Argument]) -> Option<Order>
    ensures order { option_map order_seen result ≡ number_order 1 1000000 run_cycles (map (argument_seen table.now) arguments.now) }
    ensures read { IsOrderRead table.now result }
{
    match number_in(arguments, 1, MOST_CYCLES) {
        Some(count) => Some(Order::Run(count as u32)),
        None => None,
    }
}

/// The order to set the watch level.
pub fn watch_order(table: &SymTable, arguments: &[Argument]) -> Option<Order>
    ensures order { option_map order_seen result ≡ number_order 0 5 watch (map (argument_seen table.now) arguments.now) }
    ensures read { IsOrderRead table.now result }
{
    match number_in(arguments, 0, MOST_LEVEL) {
        Some(level) => Some(Order::Watch(level as u8)),
        None => None,
    }
}

/// The order to set the most waves of a phase.
pub fn elaborations_order(table: &SymTable, arguments: &[Argument]) -> Option<Order>
    ensures order { option_map order_seen result ≡ number_order 1 10000 max_elaborations (map (argument_seen table.now) arguments.now) }
    ensures read { IsOrderRead table.now result }
{
    match number_in(arguments, 1, MOST_WAVES) {
        Some(count) => Some(Order::MaxElaborations(count as u32)),
        None => None,
    }
}

/// The order to take an element from the inputs.
pub fn removal_order(table: &SymTable, arguments: &[Argument]) -> Option<Order>
    ensures order { option_map order_seen result ≡ tag_order (map (argument_seen table.now) arguments.now) }
    ensures read { IsOrderRead table.now result }
{
    match arguments {
        [Argument::Number(tag)] => Some(Order::Remove(*tag)),
        _ => None,
    }
}

/// The number within these bounds, where it stands alone.
fn number_in(arguments: &[Argument], low: u64, high: u64) -> Option<u64>
    ensures number { (words : Texts) (ask : ℕ → OrderOf) → option_map ask result ≡ number_order low high ask (map (argument_seen words) arguments.now) }
    ensures within { IfSome result (λ number. (low ≤ number) × (number ≤ high)) }
{
    match arguments {
        [Argument::Number(number)] if low <= *number && *number <= high => Some(*number),
        _ => None,
    }
}
