// What `print` shows.
ghost use Rattle.std.specs.Prelude.{◌≡◌, [], ◌∷◌, map, option_map, IfOk};
ghost use Rattle.soar_sym.specs.Words.{text_of};
ghost use Rattle.soar_sym.specs.declared.symbol.Sym.TheVariants.{Word};
ghost use Rattle.defs_read.specs.Sayings.{IsWordKnown};
ghost use Rattle.defs_run.specs.Arguments.{bare};
ghost use Rattle.defs_run.specs.CommandForms.{print_order, printing_order};
ghost use Rattle.command_orders.specs.Asked.{listing_by, order_seen, shown_by};
ghost use Rattle.command_orders.specs.Behind.{AreArgumentsKnown, IsArgumentKnown, argument_seen};
ghost use Rattle.command_orders.specs.Known.{IsOrderKnown, IsOrderRead};

use crate::argument::Argument;
use crate::operand::{identifier_of, label_of, word_symbol};
use defs_run::{Operand, Order};
use soar_sym::{NoMemory, SymTable};
use std::alloc::Global;

/// The order to show elements, productions or one of these.
pub fn printing_order(
    alloc: Global,
    table: &SymTable,
    arguments: &[Argument],
) -> Result<Option<Order>, NoMemory>
    requires { AreArgumentsKnown table.now arguments.now }
    ensures order { IfOk result (λ order. option_map order_seen order ≡ printing_order table.now (map (argument_seen table.now) arguments.now)) }
    ensures read { IfOk result (λ order. IsOrderRead table.now order) }
{
    match arguments {
        [argument] => print_order(alloc, table, *argument),
        _ => Ok(None),
    }
}

/// What an argument asks for that stands alone.
fn print_order(
    alloc: Global,
    table: &SymTable,
    argument: Argument,
) -> Result<Option<Order>, NoMemory>
    requires { IsArgumentKnown table.now argument }
    ensures order { IfOk result (λ order. option_map order_seen order ≡ print_order table.now (argument_seen table.now argument)) }
    ensures read { IfOk result (λ order. IsOrderRead table.now order) }
{
    match argument {
        Argument::Bare(word) => Ok(print_bare(table, word)),
        Argument::Barred(word) => Ok(Some(Order::Show(word_symbol(table, word)))),
        Argument::Label(name) => Ok(Some(Order::Print(label_of(alloc, table, name)?))),
        _ => Ok(None),
    }
}

/// What a bare word asks for: a list, or the elements of an identifier, or the production of a name.
fn print_bare(table: &SymTable, word: u32) -> Option<Order>
    requires { IsWordKnown table.now (Word word) }
    ensures order { option_map order_seen result ≡ print_order table.now (bare (text_of table.now word)) }
    ensures read { IsOrderRead table.now result }
{
    match listing_by(table, table.text(word)) {
        Some(order) => Some(order),
        None => Some(print_word(table, word)),
    }
}

/// The order to list all elements, productions or learned productions.
fn listing_by(table: &SymTable, text: &str) -> Option<Order>
    ensures order { option_map order_seen result ≡ listing_by text.now }
    ensures read { IsOrderRead table.now result }
{
    if text == "--wm" {
        Some(Order::PrintMemory)
    } else if text == "--rules" {
        Some(Order::PrintRules)
    } else if text == "--chunks" {
        Some(Order::PrintChunks)
    } else {
        None
    }
}

/// The elements of an identifier, whose letter may be small, or the production of a name.
fn print_word(table: &SymTable, word: u32) -> Order
    requires { IsWordKnown table.now (Word word) }
    ensures order { order_seen result ≡ shown_by table.now (text_of table.now word) }
    ensures known { IsOrderKnown table.now result }
{
    match identifier_of(table.text(word).as_bytes()) {
        Some(id) => Order::Print(Operand::Symbol(id)),
        None => Order::Show(word_symbol(table, word)),
    }
}
