// Which of the operators that are left is drawn.
ghost use Rattle.std.specs.Prelude.{◌≡◌, ◌&&◌, ◌<◌, nat_lt, if◌then◌else◌, length, Some};
ghost use Rattle.defs_soar.specs.Verdicts.{drawn_from, first_word, takes_word};
ghost use Rattle.soar_choose.specs.Rows.{AreSumsWithin, IsFraction};

use defs_soar::{Mode, Scored};
use soar_choose::draw;
use soar_sym::{List, Sym};

/// The operator that a mode draws (Soar manual, chapter 9, indifferent selection; whole numbers are this engine's).
#[tactic(auto, using(crate::proofs::DrawnLemmas::value_is))]
pub fn drawn(mode: Mode, random: &[u64], left: &List<Scored>) -> Sym
    requires fraction { IsFraction mode }
    requires some { 0 < length left.now }
    requires sums { AreSumsWithin left.now }
    ensures { drawn_from mode random.now left.now ≡ Some result }
{
    let word = word_for(mode, random, left.len());
    match left.get(draw(mode, left, word)) {
        Some(scored) => scored.value,
        None => unreachable!(),
    }
}

/// The random word that a draw takes, and 0 where it takes none or none is there.
fn word_for(mode: Mode, random: &[u64], count: usize) -> u64
    ensures { result ≡ (if takes_word mode && nat_lt 1 count then first_word random.now else 0) }
{
    if uses_word(mode, count) {
        first_word(random)
    } else {
        0
    }
}

/// Whether a draw among so many takes a random word.
pub fn uses_word(mode: Mode, count: usize) -> bool
    ensures { result ≡ (takes_word mode && nat_lt 1 count) }
{
    takes_word(mode) && count > 1
}

fn takes_word(mode: Mode) -> bool
    ensures { result ≡ takes_word mode }
{
    match mode {
        Mode::First | Mode::Last => false,
        Mode::Softmax | Mode::EpsilonGreedy { .. } => true,
    }
}

fn first_word(random: &[u64]) -> u64
    ensures { result ≡ first_word random.now }
{
    match random.first() {
        Some(word) => *word,
        None => 0,
    }
}
