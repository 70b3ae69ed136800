// The random words that a command asks for.
ghost use Rattle.std.specs.Prelude.{◌≡◌, option_map, IfOk};
ghost use Rattle.soar_sym.specs.Words.{Texts};
ghost use Rattle.defs_run.specs.Orders.{random};
ghost use Rattle.command_orders.specs.Asked.{all_numbers, numbers_order, order_seen};
ghost use Rattle.command_orders.specs.Known.{IsOrderRead};

use defs_run::Order;
use soar_sym::{List, NoMemory};
use std::alloc::Global;

/// The order to queue the numbers behind the first token. There is none where there are no others, or one is no number.
pub fn random_order(alloc: Global, numbers: &[Option<u64>]) -> Result<Option<Order>, NoMemory>
    ensures order { IfOk result (λ order. option_map order_seen order ≡ numbers_order numbers.now) }
    ensures read { IfOk result (λ order. (words : Texts) → IsOrderRead words order) }
{
    match numbers.split_first() {
        Some((_, behind)) if !behind.is_empty() => queue_numbers(alloc, behind),
        _ => Ok(None),
    }
}

fn queue_numbers(alloc: Global, numbers: &[Option<u64>]) -> Result<Option<Order>, NoMemory>
    ensures order { IfOk result (λ order. option_map order_seen order ≡ option_map random (all_numbers numbers.now)) }
    ensures read { IfOk result (λ order. (words : Texts) → IsOrderRead words order) }
{
    match all_numbers(alloc, numbers)? {
        Some(words) => Ok(Some(Order::Random(words))),
        None => Ok(None),
    }
}

/// The numbers, where each is one.
fn all_numbers(alloc: Global, numbers: &[Option<u64>]) -> Result<Option<List<u64>>, NoMemory>
    ensures { IfOk result (λ words. words ≡ all_numbers numbers.now) }
{
    let mut words = List::new(alloc);
    'numbers: for number in numbers {
        match number {
            Some(number) => words.push(*number)?,
            None => return Ok(None),
        }
    }
    Ok(Some(words))
}
