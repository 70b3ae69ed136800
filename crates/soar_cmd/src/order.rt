// What the tokens of a command ask for.
ghost use Rattle.std.specs.Prelude.{◌≡◌, List as ListOf, map, option_map, IfOk};
ghost use Rattle.defs_text.specs.Lexing.{Spelled};
ghost use Rattle.defs_text.specs.Numbered.{numbered};
ghost use Rattle.defs_read.specs.Sayings.{AreTokensKnown};
ghost use Rattle.defs_run.specs.CommandForms.{alone};
ghost use Rattle.command_orders.specs.Asked.{form_seen, order_by, order_seen};
ghost use Rattle.command_orders.specs.Behind.{AreArgumentsKnown, argument_seen};
ghost use Rattle.command_orders.specs.Known.{AreSpelledIn, IsOrderKnown, IsOrderRead};

use command_orders::{
    Argument, Form, addition_order, arguments_behind, chunk_order, elaborations_order,
    excise_order, explain_order, input_order, matches_order, printing_order, removal_order,
    run_order, selection_order, slot_order, watch_order,
};
use defs_run::Order;
use defs_text::Token;
use soar_sym::{NoMemory, SymTable};
use std::alloc::Global;

/// The order of the tokens of a command, the first of which is its word. The text is that which they were cut from.
pub fn order_by(
    alloc: Global,
    table: &SymTable,
    form: Form,
    text: &[u8],
    tokens: &[Token],
) -> Result<Option<Order>, NoMemory>
    requires { AreTokensKnown table.now tokens.now }
    ensures order { IfOk result (λ order. (spelled : ListOf Spelled) → tokens.now ≡ map (numbered table.now) spelled → AreSpelledIn table.now spelled
        → option_map order_seen order ≡ order_by (form_seen form) table.now text.now spelled) }
    ensures read { IfOk result (λ order. IsOrderRead table.now order) }
{
    let arguments = arguments_behind(alloc, text, tokens)?;
    order_of(alloc, table, form, arguments.as_slice())
}

/// The order of the arguments behind a command's word.
fn order_of(
    alloc: Global,
    table: &SymTable,
    form: Form,
    arguments: &[Argument],
) -> Result<Option<Order>, NoMemory>
    requires { AreArgumentsKnown table.now arguments.now }
    ensures order { IfOk result (λ order. option_map order_seen order ≡ form_seen form table.now (map (argument_seen table.now) arguments.now)) }
    ensures read { IfOk result (λ order. IsOrderRead table.now order) }
{
    match form {
        Form::Excise => Ok(excise_order(table, arguments)),
        Form::Add => addition_order(alloc, table, arguments),
        Form::Remove => Ok(removal_order(table, arguments)),
        Form::Input => input_order(alloc, table, arguments),
        Form::Run => Ok(run_order(table, arguments)),
        Form::Watch => Ok(watch_order(table, arguments)),
        Form::Matches => Ok(matches_order(table, arguments)),
        Form::Preferences => slot_order(alloc, table, arguments),
        Form::Print => printing_order(alloc, table, arguments),
        Form::Chunk => Ok(chunk_order(table, arguments)),
        Form::Selection => Ok(selection_order(table, arguments)),
        Form::Elaborations => Ok(elaborations_order(table, arguments)),
        Form::Explain => Ok(explain_order(table, arguments)),
        Form::Stats => Ok(alone(table, Order::Stats, arguments)),
        Form::InitSoar => Ok(alone(table, Order::InitSoar, arguments)),
        Form::Quit => Ok(alone(table, Order::Quit, arguments)),
    }
}

/// The order, where there are no arguments.
fn alone(table: &SymTable, order: Order, arguments: &[Argument]) -> Option<Order>
    requires { IsOrderKnown table.now order }
    ensures order { option_map order_seen result ≡ alone (order_seen order) (map (argument_seen table.now) arguments.now) }
    ensures read { IsOrderRead table.now result }
{
    match arguments.first() {
        Some(_) => None,
        None => Some(order),
    }
}
