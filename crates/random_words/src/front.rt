// What stands at the front of a text of random words.
ghost use Rattle.std.specs.Prelude.{◌≡◌, ◌+◌, ◌<◌, ◌≤◌, ◌^◌, length, IfOk};
ghost use Rattle.std.specs.List.{prefix_len};
ghost use Rattle.defs_text.specs.Bytes.{is_run_byte};
ghost use Rattle.defs_text.specs.Lexing.{fault, run_of, wide_number};
ghost use Rattle.soar_lex.specs.Pieces.{IsFault, piece_at};
ghost use Rattle.random_words.specs.Pieces.{IsFront, bytes_of, random_at};

use crate::number::unsigned_value;
use soar_lex::{LexFault, Piece, Says, first_piece, run_byte};

/// A blank or a comment, or a token, with the number of its bytes. A token is one that other commands have too, or an
/// integer from 2^63 on.
#[derive(Clone, Copy)]
pub enum Front<'a> {
    Nothing(usize),
    Token(Says<'a>, usize),
    Wide(u64, usize),
}

/// What stands at the front of a text that begins at a place.
pub fn random_front(text: &[u8], place: u32) -> Result<Front<'_>, LexFault>
    requires some { 0 < length text.now }
    requires room { place + length text.now < 2 ^ 32 }
    ensures piece { IsFront text.now (random_at place text.now) result }
    ensures within { IfOk result (λ front. (0 < bytes_of front) × (bytes_of front ≤ length text.now)) }
{
    match first_piece(text, place) {
        Ok(Piece::Nothing(count)) => Ok(Front::Nothing(count)),
        Ok(Piece::Token(says, count)) => Ok(Front::Token(says, count)),
        Err(fault) => faulty_front(text, place, fault),
    }
}

/// What stands where other commands have a fault.
fn faulty_front(text: &[u8], place: u32, fault: LexFault) -> Result<Front<'_>, LexFault>
    requires { IsFault (piece_at place text.now) fault }
    ensures piece { IsFront text.now (random_at place text.now) result }
    ensures within { IfOk result (λ front. (0 < bytes_of front) × (bytes_of front ≤ length text.now)) }
{
    match fault {
        LexFault::WideNumber(_) => wide_front(text, place),
        _ => Err(fault),
    }
}

/// An integer that 64 bits do not hold with a sign: a random word, where it has none and 64 bits hold it.
fn wide_front(text: &[u8], place: u32) -> Result<Front<'_>, LexFault>
    requires { piece_at place text.now ≡ fault (wide_number place) }
    ensures piece { IsFront text.now (random_at place text.now) result }
    ensures within { IfOk result (λ front. (0 < bytes_of front) × (bytes_of front ≤ length text.now)) }
{
    let run = front_run(text);
    match unsigned_value(run) {
        Some(value) => Ok(Front::Wide(value, run.len())),
        None => Err(LexFault::WideNumber(place)),
    }
}

/// The longest run in front of a text.
fn front_run(text: &[u8]) -> &[u8]
    ensures run { result.now ≡ run_of text.now }
    ensures within { length result.now ≤ length text.now }
{
    text.split_at(run_len(text)).0
}

fn run_len(text: &[u8]) -> usize
    ensures count { result ≡ prefix_len is_run_byte text.now }
    ensures within { result ≤ length text.now }
{
    text.iter().take_while(|byte| run_byte(**byte)).count()
}
