// The tokens of a command that queues random words.
ghost use Rattle.std.specs.Prelude.{◌≡◌, ◌+◌, ◌<◌, ◌≤◌, ◌^◌, ◌++◌, ◌∷◌, [], length};
ghost use Rattle.random_words.specs.Answers.{AreNumbersRead};
ghost use Rattle.random_words.specs.Steps.{IsStep};

use crate::front::{Front, random_front};
use crate::number::number_of;
use soar_lex::{LexFault, named};
use soar_sym::{List, SymTable};
use std::alloc::Global;

/// Cuts a text into tokens, whose words and variables join the table in their order, up to the first fault, and gives
/// for each token its number, where it is an integer without a sign.
pub fn lex_random(
    alloc: Global,
    table: &mut SymTable,
    text: &List<u8>,
) -> Result<List<Option<u64>>, LexFault>
    requires { length text.now ≤ 2 ^ 26 }
    ensures { AreNumbersRead table.old table.new text.now result }
{
    let mut numbers = List::new(alloc);
    let mut rest = text.as_slice();
    let mut place = 0;
    'pieces: while !rest.is_empty() {
        let count = cut_piece(alloc, table, &mut numbers, rest, place)?;
        rest = rest.split_at(count).1;
        place += count as u32;
    }
    Ok(numbers)
}

/// Reads the piece at the front, which begins at a place, and gives the number of its bytes. The number of a token
/// joins the others.
fn cut_piece(
    alloc: Global,
    table: &mut SymTable,
    numbers: &mut List<Option<u64>>,
    rest: &[u8],
    place: u32,
) -> Result<usize, LexFault>
    requires some { 0 < length rest.now }
    requires room { place + length rest.now < 2 ^ 32 }
    ensures { IsStep table.old table.new numbers.old numbers.new place rest.now result }
{
    let (number, count) = match random_front(rest, place)? {
        Front::Nothing(count) => return Ok(count),
        Front::Token(says, count) => {
            named(alloc, table, says)?;
            (number_of(rest, says), count)
        }
        Front::Wide(value, count) => (Some(value), count),
    };
    match numbers.push(number) {
        Ok(()) => Ok(count),
        Err(_) => Err(LexFault::NoMemory),
    }
}
