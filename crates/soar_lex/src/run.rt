ghost use Rattle.std.specs.Prelude.{◌≡◌, ◌&&◌, ◌<◌, not, true, false, length, position, IfSome, MatchOption};
ghost use Rattle.std.specs.List.{list_all, list_any, prefix_len};
ghost use Rattle.std.specs.Str.{bytes_eq};
ghost use Rattle.defs_text.specs.Bytes.{is_angle};
ghost use Rattle.defs_text.specs.Runs.{is_sign, sign_place, signs, is_variable, is_empty, ends_with, front_of};
ghost use Rattle.soar_lex.specs.Answers.{IsKind};

use crate::number::{integer, is_float, is_integer};

/// What a run of bytes is (Soar manual, chapter 3, production syntax).
#[derive(Clone, Copy, PartialEq, Eq)]
pub enum Run {
    Arrow,
    OpenSet,
    CloseSet,
    /// By its place in the row of signs.
    Sign(u8),
    Variable,
    Number(i64),
    /// An integer that 64 bits do not hold.
    WideNumber,
    Float,
    /// None of the others, with the number of bytes before its first `<` or `>`.
    Angle(usize),
    Word,
}

/// The signs in their row.
const SIGNS: [&[u8]; 9] = [b"<", b">", b"<=", b">=", b"<>", b"<=>", b"=", b"+", b"-"];

/// What a run is as a whole.
pub fn run_kind(run: &[u8]) -> Run
    ensures { IsKind run.now result }
{
    if is_text(b"-->", run) {
        return Run::Arrow;
    }
    if is_text(b"<<", run) {
        return Run::OpenSet;
    }
    if is_text(b">>", run) {
        return Run::CloseSet;
    }
    if let Some(place) = sign(run) {
        return Run::Sign(place);
    }
    if is_variable(run) {
        return Run::Variable;
    }
    if is_integer(run) {
        return match integer(run) {
            Some(value) => Run::Number(value),
            None => Run::WideNumber,
        };
    }
    if is_float(run) {
        return Run::Float;
    }
    if has_angle(run) {
        return Run::Angle(angles_before(run));
    }
    Run::Word
}

fn is_text(text: &[u8], run: &[u8]) -> bool
    ensures { result ≡ bytes_eq text.now run.now }
{
    text == run
}

/// The place of a run in the row of signs.
fn sign(run: &[u8]) -> Option<u8>
    ensures { MatchOption result (is_sign run.now ≡ false)
        (λ place. (is_sign run.now ≡ true) × (sign_place signs run.now ≡ place)) }
{
    let place = place_in(&SIGNS, run)?;
    Some(place as u8)
}

/// The first place in a row of texts at which a run stands.
fn place_in(row: &[&[u8]], run: &[u8]) -> Option<usize>
    ensures at { result ≡ position (λ text. bytes_eq text.now run.now) row.now }
    ensures within { IfSome result (λ place. place < length row.now) }
{
    row.iter().position(|text| is_text(text, run))
}

fn angle(byte: u8) -> bool
    ensures { result ≡ is_angle byte }
{
    byte == b'<' || byte == b'>'
}

fn has_angle(run: &[u8]) -> bool
    ensures { result ≡ list_any is_angle run.now }
{
    run.iter().any(|b| angle(*b))
}

fn angles_before(run: &[u8]) -> usize
    ensures { result ≡ prefix_len (λ b. not (is_angle b)) run.now }
{
    run.iter().take_while(|b| !angle(**b)).count()
}

/// A name in angle brackets.
fn is_variable(run: &[u8]) -> bool
    ensures { result ≡ is_variable run.now }
{
    match run.split_first() {
        Some((first, rest)) => *first == b'<' && closes_variable(rest),
        None => false,
    }
}

/// A name and the `>` behind it.
#[tactic(auto, using(crate::proofs::RunLemmas::ends_with_last, crate::proofs::RunLemmas::front_of_last))]
fn closes_variable(rest: &[u8]) -> bool
    ensures { result ≡ (ends_with 62 rest.now && (not (is_empty (front_of rest.now)) && list_all (λ b. not (is_angle b)) (front_of rest.now))) }
{
    match rest.split_last() {
        Some((last, name)) => *last == b'>' && is_name(name),
        None => false,
    }
}

/// One or more bytes without an angle bracket.
fn is_name(bytes: &[u8]) -> bool
    ensures { result ≡ (not (is_empty bytes.now) && list_all (λ b. not (is_angle b)) bytes.now) }
{
    bytes.len() > 0 && has_no_angle(bytes)
}

fn has_no_angle(bytes: &[u8]) -> bool
    ensures { result ≡ list_all (λ b. not (is_angle b)) bytes.now }
{
    bytes.iter().all(|b| !angle(*b))
}
