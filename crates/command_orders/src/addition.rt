// Elements that are added, at once or as inputs.
ghost use Rattle.std.specs.Prelude.{◌≡◌, [], ◌∷◌, map, option_map, IfOk, IfSome};
ghost use Rattle.soar_sym.specs.Words.{text_of};
ghost use Rattle.defs_read.specs.Sayings.{IsWordKnown};
ghost use Rattle.defs_run.specs.Arguments.{bare, caret};
ghost use Rattle.defs_run.specs.CommandForms.{input_order, triple_order};
ghost use Rattle.defs_run.specs.Orders.{Operand as OperandOf, Order as OrderOf, add_wme, queue};
ghost use Rattle.command_orders.specs.Asked.{adds_by, asked_with, order_seen};
ghost use Rattle.command_orders.specs.Behind.{AreArgumentsKnown, IsArgumentKnown, argument_seen, triple_in};
ghost use Rattle.command_orders.specs.Known.{IsAdditionKnown, IsOrderRead};

use crate::argument::Argument;
use crate::operand::{attribute_of, id_of, operand_of};
use defs_run::{Addition, Operand, Order};
use soar_sym::{NoMemory, Sym, SymTable};
use std::alloc::Global;

/// The order to add an element.
pub fn addition_order(
    alloc: Global,
    table: &SymTable,
    arguments: &[Argument],
) -> Result<Option<Order>, NoMemory>
    requires { AreArgumentsKnown table.now arguments.now }
    ensures order { IfOk result (λ order. option_map order_seen order ≡ triple_order table.now add_wme (map (argument_seen table.now) arguments.now)) }
    ensures read { IfOk result (λ order. IsOrderRead table.now order) }
{
    match addition_in(alloc, table, arguments)? {
        Some(addition) => Ok(Some(Order::Add(addition))),
        None => Ok(None),
    }
}

/// The order to queue a change of the inputs.
pub fn input_order(
    alloc: Global,
    table: &SymTable,
    arguments: &[Argument],
) -> Result<Option<Order>, NoMemory>
    requires { AreArgumentsKnown table.now arguments.now }
    ensures order { IfOk result (λ order. option_map order_seen order ≡ input_order table.now (map (argument_seen table.now) arguments.now)) }
    ensures read { IfOk result (λ order. IsOrderRead table.now order) }
{
    match arguments.split_first() {
        Some((Argument::Bare(word), triple)) => change_order(alloc, table, *word, triple),
        _ => Ok(None),
    }
}

/// The order behind a bare word, which says whether to add.
fn change_order(
    alloc: Global,
    table: &SymTable,
    word: u32,
    triple: &[Argument],
) -> Result<Option<Order>, NoMemory>
    requires word { IsWordKnown table.now (Sym.Word word) }
    requires triple { AreArgumentsKnown table.now triple.now }
    ensures order { IfOk result (λ order. option_map order_seen order
        ≡ input_order table.now (bare (text_of table.now word) ∷ map (argument_seen table.now) triple.now)) }
    ensures read { IfOk result (λ order. IsOrderRead table.now order) }
{
    match adds_by(table.text(word)) {
        Some(adds) => queue_order(alloc, table, adds, triple),
        None => Ok(None),
    }
}

/// Whether a word adds: `add` does, and `remove` does not.
fn adds_by(text: &str) -> Option<bool>
    ensures { result ≡ adds_by text.now }
{
    if text == "add" {
        Some(true)
    } else if text == "remove" {
        Some(false)
    } else {
        None
    }
}

fn queue_order(
    alloc: Global,
    table: &SymTable,
    adds: bool,
    arguments: &[Argument],
) -> Result<Option<Order>, NoMemory>
    requires { AreArgumentsKnown table.now arguments.now }
    ensures order { IfOk result (λ order. option_map order_seen order ≡ triple_order table.now (queue adds) (map (argument_seen table.now) arguments.now)) }
    ensures read { IfOk result (λ order. IsOrderRead table.now order) }
{
    match addition_in(alloc, table, arguments)? {
        Some(addition) => Ok(Some(Order::Queue(adds, addition))),
        None => Ok(None),
    }
}

/// The element of `ID ^ATTR VALUE`, where these may stand in their places.
fn addition_in(
    alloc: Global,
    table: &SymTable,
    arguments: &[Argument],
) -> Result<Option<Addition>, NoMemory>
    requires { AreArgumentsKnown table.now arguments.now }
    ensures asked { IfOk result (λ addition. (ask : OperandOf → OperandOf → OperandOf → OrderOf)
        → option_map (asked_with ask) addition ≡ triple_order table.now ask (map (argument_seen table.now) arguments.now)) }
    ensures known { IfOk result (λ addition. IfSome addition (λ a. IsAdditionKnown table.now a)) }
{
    match triple_in(arguments) {
        Some((id, attr, value)) => addition_of(alloc, table, id, attr, value),
        None => Ok(None),
    }
}

/// The identifier, the attribute and the value of `ID ^ATTR VALUE`.
fn triple_in(arguments: &[Argument]) -> Option<(Argument, Argument, Argument)>
    ensures { result ≡ triple_in arguments.now }
{
    match arguments {
        [id, Argument::Caret, attr, value] => Some((*id, *attr, *value)),
        _ => None,
    }
}

/// The element of three arguments, where they may stand in their places.
fn addition_of(
    alloc: Global,
    table: &SymTable,
    id: Argument,
    attr: Argument,
    value: Argument,
) -> Result<Option<Addition>, NoMemory>
    requires id { IsArgumentKnown table.now id }
    requires attr { IsArgumentKnown table.now attr }
    requires value { IsArgumentKnown table.now value }
    ensures asked { IfOk result (λ addition. (ask : OperandOf → OperandOf → OperandOf → OrderOf)
        → option_map (asked_with ask) addition
        ≡ triple_order table.now ask (argument_seen table.now id ∷ caret ∷ argument_seen table.now attr ∷ argument_seen table.now value ∷ [])) }
    ensures known { IfOk result (λ addition. IfSome addition (λ a. IsAdditionKnown table.now a)) }
{
    match (
        id_of(alloc, table, id)?,
        attribute_of(table, attr),
        operand_of(alloc, table, value)?,
    ) {
        (Some(id), Some(attr), Some(value)) => Ok(Some(Addition {
            id,
            attr: Operand::Symbol(attr),
            value,
        })),
        _ => Ok(None),
    }
}
