// What stands at the front of a text.
ghost use Rattle.std.specs.Prelude.{◌≡◌, ℕ, ◌+◌, ◌<◌, ◌≤◌, ◌^◌, ◌==◌, not, List as ListOf, length, IfOk};
ghost use Rattle.std.specs.List.{prefix_len};
ghost use Rattle.std.specs.Str.{IsAscii};
ghost use Rattle.defs_text.specs.Bytes.{is_run_byte};
ghost use Rattle.defs_text.specs.Runs.{inside_of, run_kind};
ghost use Rattle.defs_text.specs.Quotes.{closing};
ghost use Rattle.defs_text.specs.Lexing.{after_run, begins_fraction, quoted_piece, quoted_word, run_of, run_piece, documentation, Saying};
ghost use Rattle.soar_lex.specs.Pieces.{bytes_of, piece_at, IsFront, IsInside};

use crate::bytes::{blank, mark, run_byte};
use crate::quote::{checked, closing};
use crate::run::{Run, run_kind};
use defs_text::LexFault;

/// What a token says, with its text as it stands.
#[derive(Clone, Copy)]
pub enum Says<'a> {
    Mark(u8),
    Arrow,
    OpenSet,
    CloseSet,
    Sign(u8),
    Variable(&'a str),
    Integer(i64),
    Bare(&'a str),
    /// What stands between the bars.
    Barred(&'a str),
    /// What stands between the quotes.
    Quoted(&'a str),
}

/// A token, or a blank or a comment, with the number of its bytes.
#[derive(Clone, Copy)]
pub enum Piece<'a> {
    Nothing(usize),
    Token(Says<'a>, usize),
}

/// What stands at the front of a text that begins at a place.
pub fn front(text: &[u8], place: u32) -> Result<Piece<'_>, LexFault>
    requires some { 0 < length text.now }
    requires room { place + length text.now < 2 ^ 32 }
    ensures piece { IsFront (piece_at place text.now) result }
    ensures within { IfOk result (λ front. (0 < bytes_of front) × (bytes_of front ≤ length text.now)) }
{
    let (first, after) = match text.split_first() {
        Some((first, after)) => (*first, after),
        None => unreachable!(),
    };
    if blank(first) {
        Ok(Piece::Nothing(1))
    } else if run_byte(first) {
        let (run, after) = split_run(text);
        run_front(run, after, place)
    } else if mark(first) {
        Ok(Piece::Token(Says::Mark(first), 1))
    } else if first == b'|' {
        barred(after, place)
    } else if first == b'"' {
        quoted(after, place)
    } else if first == b'#' {
        Ok(Piece::Nothing(line_len(after) + 1))
    } else {
        Err(LexFault::BadByte(place))
    }
}

/// What a run is, by its kind and by what follows it.
#[tactic(auto, using(crate::proofs::FrontLemmas::inside_is_ascii))]
fn run_front<'a>(run: &'a [u8], after: &[u8], place: u32) -> Result<Piece<'a>, LexFault>
    requires ascii { IsAscii run.now }
    requires room { place + length run.now < 2 ^ 32 }
    ensures piece { IsFront (run_piece place run.now after.now (run_kind run.now)) result }
    ensures count { IfOk result (λ front. bytes_of front ≡ length run.now) }
{
    let count = run.len();
    match run_kind(run) {
        Run::Arrow => Ok(Piece::Token(Says::Arrow, count)),
        Run::OpenSet => Ok(Piece::Token(Says::OpenSet, count)),
        Run::CloseSet => Ok(Piece::Token(Says::CloseSet, count)),
        Run::Sign(row) => Ok(Piece::Token(Says::Sign(row), count)),
        Run::Variable => Ok(Piece::Token(Says::Variable(ascii(inside_of(run))), count)),
        Run::Word => Ok(Piece::Token(Says::Bare(ascii(run)), count)),
        Run::Angle(before) => Err(LexFault::BadByte(place + before as u32)),
        Run::Number(value) if !begins_fraction(after) => {
            Ok(Piece::Token(Says::Integer(value), count))
        }
        Run::WideNumber if !begins_fraction(after) => Err(LexFault::WideNumber(place)),
        Run::Number(_) | Run::WideNumber | Run::Float => Err(LexFault::FloatNumber(place)),
    }
}

/// How many bytes stand before the end of the line.
fn line_len(after: &[u8]) -> usize
    ensures count { result ≡ prefix_len (λ c. not (c == 10)) after.now }
    ensures within { result ≤ length after.now }
{
    after.iter().take_while(|byte| **byte != b'\n').count()
}

/// A word in bars, behind the first bar.
fn barred(after: &[u8], place: u32) -> Result<Piece<'_>, LexFault>
    requires { place + length after.now + 1 < 2 ^ 32 }
    ensures piece { IsFront (quoted_piece 124 place quoted_word after.now (closing 124 after.now)) result }
    ensures within { IfOk result (λ front. (0 < bytes_of front) × (bytes_of front ≤ length after.now + 1)) }
{
    let inside = inside(b'|', after, place)?;
    Ok(Piece::Token(Says::Barred(inside), inside.len() + 2))
}

/// A string in quotes, behind the first quote.
fn quoted(after: &[u8], place: u32) -> Result<Piece<'_>, LexFault>
    requires { place + length after.now + 1 < 2 ^ 32 }
    ensures piece { IsFront (quoted_piece 34 place documentation after.now (closing 34 after.now)) result }
    ensures within { IfOk result (λ front. (0 < bytes_of front) × (bytes_of front ≤ length after.now + 1)) }
{
    let inside = inside(b'"', after, place)?;
    Ok(Piece::Token(Says::Quoted(inside), inside.len() + 2))
}

/// The text before the closing byte, behind an opening one at a place.
fn inside(quote: u8, after: &[u8], place: u32) -> Result<&str, LexFault>
    requires { place + length after.now + 1 < 2 ^ 32 }
    ensures piece { (says : ListOf ℕ → Saying) → IsInside says (quoted_piece quote place says after.now (closing quote after.now)) result }
    ensures within { IfOk result (λ inside. length inside.now < length after.now) }
{
    let count = match closing(quote, after) {
        Some(count) => count,
        None => return Err(LexFault::OpenString(place)),
    };
    match checked(quote, after.split_at(count).0) {
        Ok(inside) => Ok(inside),
        Err(at) => Err(LexFault::BadByte(place + 1 + at as u32)),
    }
}

/// The longest run in front of a text, and what follows it.
#[tactic(auto, using(crate::proofs::FrontLemmas::run_is_ascii))]
fn split_run(text: &[u8]) -> (&[u8], &[u8])
    ensures run { result.0.now ≡ run_of text.now }
    ensures after { result.1.now ≡ after_run text.now }
    ensures ascii { IsAscii result.0.now }
{
    text.split_at(run_len(text))
}

fn run_len(text: &[u8]) -> usize
    ensures count { result ≡ prefix_len is_run_byte text.now }
    ensures within { result ≤ length text.now }
{
    text.iter().take_while(|byte| run_byte(**byte)).count()
}

/// A dot and a digit.
fn begins_fraction(after: &[u8]) -> bool
    ensures { result ≡ begins_fraction after.now }
{
    match after {
        [b'.', digit, ..] => digit.is_ascii_digit(),
        _ => false,
    }
}

/// What stands between the first byte and the last.
fn inside_of(run: &[u8]) -> &[u8]
    ensures { result.now ≡ inside_of run.now }
{
    match run {
        [_, inside @ .., _] => inside,
        _ => &[],
    }
}

/// ASCII as a text.
#[tactic(auto, using(crate::proofs::FrontLemmas::ascii_is_text))]
fn ascii(bytes: &[u8]) -> &str
    requires { IsAscii bytes.now }
    ensures { result.now ≡ bytes.now }
{
    match std::str::from_utf8(bytes) {
        Ok(text) => text,
        Err(_) => unreachable!(),
    }
}
