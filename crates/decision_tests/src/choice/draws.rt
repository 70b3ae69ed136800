// Rows of a mode, a word, sums and the place that is drawn.
ghost use Rattle.std.specs.Prelude.{IsTrue};
ghost use Rattle.soar_choose.specs.Rows.{AreSumsWithin, IsFraction};

use crate::choice::symbols::symbol;
use soar_choose::{Mode, Scored, draw};
use soar_sym::{List, Sym};
use std::alloc::{AllocError, Global};

/// Whether a row of a draw and its place holds.
pub fn draws(alloc: Global, row: &str) -> Result<bool, AllocError> {
    match row.split_once(" => ") {
        Some((drawing, place)) => match place.parse::<usize>() {
            Ok(place) => Ok(drawn(alloc, drawing)? == Some(place)),
            Err(_) => Ok(false),
        },
        None => Ok(false),
    }
}

/// The place that is drawn, where the text spells a draw.
fn drawn(alloc: Global, drawing: &str) -> Result<Option<usize>, AllocError> {
    match drawing.split_once(": ") {
        Some((drawer, sums)) => {
            let left = candidates(alloc, sums)?;
            Ok(drawn_by(drawer, &left))
        }
        None => Ok(None),
    }
}

fn drawn_by(drawer: &str, left: &List<Scored>) -> Option<usize> {
    let (mode, word) = drawer.split_once(" ")?;
    let mode = mode_of(mode)?;
    match word.parse::<u64>() {
        Ok(word) if !left.is_empty() && is_fraction(mode) && are_within(left.as_slice()) => {
            Some(draw(mode, left, word))
        }
        _ => None,
    }
}

pub fn mode_of(text: &str) -> Option<Mode> {
    match text {
        "first" => Some(Mode::First),
        "last" => Some(Mode::Last),
        "softmax" => Some(Mode::Softmax),
        _ => {
            let (p, q) = text.split_once("/")?;
            match (p.parse::<u32>(), q.parse::<u32>()) {
                (Ok(p), Ok(q)) => Some(Mode::EpsilonGreedy { p, q }),
                _ => None,
            }
        }
    }
}

/// Candidates with the sums of a text.
fn candidates(alloc: Global, sums: &str) -> Result<List<Scored>, AllocError> {
    let mut left = List::new(alloc);
    for text in sums.split_whitespace() {
        if let Some(Sym::Int(sum)) = symbol(text) {
            left.push(Scored {
                value: Sym::Word(1),
                numeric: true,
                sum,
            })?;
        }
    }
    Ok(left)
}

pub fn is_fraction(mode: Mode) -> bool
    ensures { IsTrue result → IsFraction mode }
{
    match mode {
        Mode::EpsilonGreedy { p, q } => 0 < q && p <= q,
        _ => true,
    }
}

fn are_within(left: &[Scored]) -> bool
    ensures { IsTrue result → AreSumsWithin left.now }
{
    'left: for scored in left {
        if scored.sum < -1_000_000_000_000_000 || 1_000_000_000_000_000 < scored.sum {
            return false;
        }
    }
    true
}
