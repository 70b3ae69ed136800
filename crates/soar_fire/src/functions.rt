// The functions of actions, over symbols.
ghost use Rattle.std.specs.Prelude.{◌≡◌, IfOk};
ghost use Rattle.soar_sym.specs.Words.{Texts};
ghost use Rattle.defs_soar.specs.Functions as meaning;
ghost use Rattle.soar_fire.specs.Known.{Knows, GivesKnown};
ghost use Rattle.soar_fire.specs.Steps.{computed_seen, step_of};

use crate::arithmetic::{Operation, fold_with, quotient, remainder, step_with};
use crate::plain::{joined, plain_length};
use defs_soar::DropCause;
use soar_rule::Func;
use soar_sym::{Sym, SymTable, Text, is_symbol};
use std::alloc::{AllocError, Global};

/// The most bytes of a word that a function makes.
const MOST_BYTES: usize = 1_048_576;

/// What a function gives: a symbol, a text that becomes a word, or the cause of none.
#[derive(Drop)]
pub enum Computed {
    Gives(Sym),
    Spells(Text),
    Fails(DropCause),
}

pub fn compute(
    alloc: Global,
    table: &SymTable,
    func: Func,
    symbols: &[Sym],
) -> Result<Computed, AllocError>
    requires { Knows table.now symbols.now }
    ensures value { IfOk result (λ c. computed_seen c ≡ meaning.computed table.now func symbols.now) }
    ensures known { IfOk result (λ c. GivesKnown table.now c) }
{
    Ok(match func {
        Func::Plus => as_number(fold_with(Operation::Sum, Ok(0), symbols)),
        Func::Times => as_number(fold_with(Operation::Product, Ok(1), symbols)),
        Func::Minus => as_number(difference(symbols)),
        Func::Div => as_number(divided(symbols)),
        Func::Mod => as_number(left_over(symbols)),
        Func::Abs => as_number(of_one(Operation::Size, symbols)),
        Func::Min => as_number(over_first(Operation::Least, symbols)),
        Func::Max => as_number(over_first(Operation::Greatest, symbols)),
        Func::Concat => as_word(joined(alloc, table, symbols)?),
        Func::IfEq => third_or_fourth(table, symbols),
        Func::StrLen => length_of_first(table, symbols),
        Func::Crlf => Computed::Spells(Text::from_str(alloc, "\n")?),
    })
}

fn number_of(symbol: Sym) -> Result<i64, DropCause>
    ensures { result ≡ meaning.number_of symbol }
{
    match symbol {
        Sym::Int(value) => Ok(value),
        _ => Err(DropCause::NotANumber),
    }
}

fn as_number(number: Result<i64, DropCause>) -> Computed
    ensures value { computed_seen result ≡ meaning.as_number number }
    ensures known { (words : Texts) → GivesKnown words result }
{
    match number {
        Ok(value) => Computed::Gives(Sym::Int(value)),
        Err(cause) => Computed::Fails(cause),
    }
}

/// One value is negated. Of several, the others are taken from the first.
fn difference(symbols: &[Sym]) -> Result<i64, DropCause>
    ensures { result ≡ meaning.difference symbols.now }
{
    if symbols.len() == 1 {
        of_one(Operation::Opposite, symbols)
    } else {
        over_first(Operation::Rest, symbols)
    }
}

fn over_first(operation: Operation, symbols: &[Sym]) -> Result<i64, DropCause>
    ensures { result ≡ meaning.over_first (step_of operation) symbols.now }
{
    match symbols.split_first() {
        Some((first, others)) => fold_with(operation, number_of(*first), others),
        None => Err(DropCause::NotANumber),
    }
}

fn of_one(operation: Operation, symbols: &[Sym]) -> Result<i64, DropCause>
    ensures { result ≡ meaning.of_one (step_of operation) symbols.now }
{
    match symbols {
        [one] => step_with(operation, Ok(0), *one),
        _ => Err(DropCause::NotANumber),
    }
}

fn divided(symbols: &[Sym]) -> Result<i64, DropCause>
    ensures { result ≡ meaning.of_two meaning.quotient symbols.now }
{
    match symbols {
        [first, second] => quotient(number_of(*first)?, number_of(*second)?),
        _ => Err(DropCause::NotANumber),
    }
}

/// What the division leaves.
fn left_over(symbols: &[Sym]) -> Result<i64, DropCause>
    ensures { result ≡ meaning.of_two meaning.remainder symbols.now }
{
    match symbols {
        [first, second] => remainder(number_of(*first)?, number_of(*second)?),
        _ => Err(DropCause::NotANumber),
    }
}

fn as_word(text: Text) -> Computed
    ensures value { computed_seen result ≡ meaning.as_word text }
    ensures known { (words : Texts) → GivesKnown words result }
{
    if text.len() > MOST_BYTES {
        Computed::Fails(DropCause::TooLong)
    } else {
        Computed::Spells(text)
    }
}

fn third_or_fourth(table: &SymTable, symbols: &[Sym]) -> Computed
    requires { Knows table.now symbols.now }
    ensures value { computed_seen result ≡ meaning.third_or_fourth symbols.now }
    ensures known { GivesKnown table.now result }
{
    match symbols {
        [first, second, third, fourth] => {
            Computed::Gives(if is_symbol(*first, *second) {
                *third
            } else {
                *fourth
            })
        }
        _ => Computed::Fails(DropCause::NotANumber),
    }
}

fn length_of_first(table: &SymTable, symbols: &[Sym]) -> Computed
    ensures value { computed_seen result ≡ meaning.length_of_first table.now symbols.now }
    ensures known { (words : Texts) → GivesKnown words result }
{
    match symbols {
        [one] => Computed::Gives(Sym::Int(plain_length(table, *one) as i64)),
        _ => Computed::Fails(DropCause::NotANumber),
    }
}
