// Whole numbers of 64 bits, step by step from the left.
ghost use Rattle.std.specs.Prelude.{◌≡◌};
ghost use Rattle.defs_soar.specs.Functions.{divided, fitting, fold_with, quotient, remainder, step_with};
ghost use Rattle.soar_fire.specs.Steps.{or_overflow, step_of};

use defs_soar::DropCause;
use soar_sym::Sym;

/// What is done with the number so far and the next one.
#[derive(Clone, Copy)]
pub enum Operation {
    Sum,
    Product,
    Rest,
    Least,
    Greatest,
    Opposite,
    Size,
}

/// A result that is none where it is beyond 64 bits.
fn or_overflow(value: Option<i64>) -> Result<i64, DropCause>
    ensures { result ≡ or_overflow value }
{
    match value {
        Some(value) => Ok(value),
        None => Err(DropCause::Overflow),
    }
}

#[tactic(auto, using(crate::proofs::NumberLemmas::or_fitting))]
fn applied(operation: Operation, z: i64, y: i64) -> Result<i64, DropCause>
    ensures { result ≡ fitting (step_of operation z y) }
{
    match operation {
        Operation::Sum => or_overflow(z.checked_add(y)),
        Operation::Product => or_overflow(z.checked_mul(y)),
        Operation::Rest => or_overflow(z.checked_sub(y)),
        Operation::Least => Ok(if y < z { y } else { z }),
        Operation::Greatest => Ok(if z < y { y } else { z }),
        Operation::Opposite => or_overflow(y.checked_neg()),
        Operation::Size => or_overflow(y.checked_abs()),
    }
}

/// The next number, from a symbol.
pub fn step_with(
    operation: Operation,
    number: Result<i64, DropCause>,
    symbol: Sym,
) -> Result<i64, DropCause>
    ensures { result ≡ step_with (step_of operation) number symbol }
{
    match (number, symbol) {
        (Err(cause), _) => Err(cause),
        (Ok(z), Sym::Int(y)) => applied(operation, z, y),
        _ => Err(DropCause::NotANumber),
    }
}

pub fn fold_with(
    operation: Operation,
    first: Result<i64, DropCause>,
    symbols: &[Sym],
) -> Result<i64, DropCause>
    ensures { result ≡ fold_with (step_of operation) first symbols.now }
{
    let mut number = first;
    'symbols: for symbol in symbols {
        number = step_with(operation, number, *symbol);
    }
    number
}

#[tactic(auto, using(crate::proofs::NumberLemmas::or_fitting, crate::proofs::NumberLemmas::or_quotient))]
pub fn quotient(z: i64, y: i64) -> Result<i64, DropCause>
    ensures { result ≡ divided quotient z y }
{
    if y == 0 {
        return Err(DropCause::ZeroDivisor);
    }
    or_overflow(z.checked_div(y))
}

/// With the sign of the first. Of every number divided by -1 it is 0, also where the quotient is beyond 64 bits.
pub fn remainder(z: i64, y: i64) -> Result<i64, DropCause>
    ensures { result ≡ divided remainder z y }
{
    match y {
        0 => Err(DropCause::ZeroDivisor),
        -1 => Ok(0),
        _ => Ok(z % y),
    }
}
