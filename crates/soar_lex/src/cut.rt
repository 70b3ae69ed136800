ghost use Rattle.std.specs.Prelude.{◌+◌, ◌<◌, ◌≤◌, ◌^◌, length};
ghost use Rattle.defs_text.specs.Lexing.{lexed};
ghost use Rattle.soar_lex.specs.Answers.{IsCut};
ghost use Rattle.soar_lex.specs.Steps.{IsStep};

use crate::front::{Piece, front};
use crate::name::named;
use defs_text::{LexFault, Token};
use soar_sym::{List, SymTable};
use std::alloc::Global;

/// Cuts a text into tokens, whose words and variables join the table in their order, up to the first fault.
pub fn lex(alloc: Global, table: &mut SymTable, text: &List<u8>) -> Result<List<Token>, LexFault>
    requires { length text.now ≤ 2 ^ 26 }
    ensures { IsCut table.old table.new (lexed text.now) result }
{
    let mut tokens = List::new(alloc);
    let mut rest = text.as_slice();
    let mut place = 0;
    'pieces: while !rest.is_empty() {
        let count = cut_piece(alloc, table, &mut tokens, rest, place)?;
        rest = rest.split_at(count).1;
        place += count as u32;
    }
    Ok(tokens)
}

/// Reads the piece at the front, which begins at a place, and gives the number of its bytes. A token joins the others.
fn cut_piece(
    alloc: Global,
    table: &mut SymTable,
    tokens: &mut List<Token>,
    rest: &[u8],
    place: u32,
) -> Result<usize, LexFault>
    requires some { 0 < length rest.now }
    requires room { place + length rest.now < 2 ^ 32 }
    ensures { IsStep table.old table.new tokens.old tokens.new place rest.now result }
{
    let (says, count) = match front(rest, place)? {
        Piece::Nothing(count) => return Ok(count),
        Piece::Token(says, count) => (says, count),
    };
    let kind = named(alloc, table, says)?;
    let token = Token {
        kind,
        start: place,
        end: place + count as u32,
    };
    match tokens.push(token) {
        Ok(()) => Ok(count),
        Err(_) => Err(LexFault::NoMemory),
    }
}
