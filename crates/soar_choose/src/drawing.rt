ghost use Rattle.std.specs.Prelude.{◌≡◌, ◌%◌, ◌<◌, pos, int_le, length};
ghost use Rattle.std.specs.List.{list_all};
ghost use Rattle.defs_soar.specs.Draw.{drawn, total_of, first_above as first_above_of, softmax as softmax_of, greatest_from, first_with as first_with_of, greatest as greatest_of, epsilon_greedy as epsilon_greedy_of};
ghost use Rattle.soar_choose.specs.Rows.{AreSumsWithin, IsFraction};

use defs_soar::{Mode, Scored};
use soar_sym::List;

/// The place, from 0, of the candidate that a mode draws with a word of the random queue.
pub fn draw(mode: Mode, left: &List<Scored>, word: u64) -> usize
    requires some { 0 < length left.now }
    requires fraction { IsFraction mode }
    requires sums { AreSumsWithin left.now }
    ensures place { result ≡ drawn mode left.now word }
    ensures within { result < length left.now }
{
    let left = left.as_slice();
    match mode {
        Mode::First => 0,
        Mode::Last => left.len() - 1,
        Mode::Softmax => softmax(left, word),
        Mode::EpsilonGreedy { p, q } => epsilon_greedy(p, q, left, word),
    }
}

/// By weight, where the sums are weights, and else each with the same chance.
fn softmax(left: &[Scored], word: u64) -> usize
    requires some { 0 < length left.now }
    requires sums { AreSumsWithin left.now }
    ensures place { result ≡ softmax_of left.now word }
    ensures within { result < length left.now }
{
    let total = total(left);
    if none_negative(left) && total > 0 {
        first_above(left, (u128::from(word) % total as u128) as u64)
    } else {
        at_random(left, word)
    }
}

/// Each with the same chance.
fn at_random(left: &[Scored], word: u64) -> usize
    requires some { 0 < length left.now }
    ensures place { result ≡ word % length left.now }
    ensures within { result < length left.now }
{
    (word % left.len() as u64) as usize
}

/// The sum of the sums.
fn total(left: &[Scored]) -> i128
    requires { AreSumsWithin left.now }
    ensures { result ≡ total_of left.now }
{
    let mut total = 0;
    'sums: for s in left {
        total += i128::from(s.sum);
    }
    total
}

/// Whether each sum is a weight.
fn none_negative(left: &[Scored]) -> bool
    ensures { result ≡ list_all (λ s. int_le (pos 0) s.sum) left.now }
{
    left.iter().all(|s| s.sum >= 0)
}

/// The first candidate whose running sum exceeds a number.
fn first_above(left: &[Scored], number: u64) -> usize
    requires { AreSumsWithin left.now }
    ensures { result ≡ first_above_of number (pos 0) left.now }
{
    let mut so_far = 0;
    'sums: for (at, s) in left.iter().enumerate() {
        so_far += i128::from(s.sum);
        if i128::from(number) < so_far {
            return at;
        }
    }
    left.len()
}

/// At random with the probability `p` of `q`, else the first with the greatest sum.
fn epsilon_greedy(p: u32, q: u32, left: &[Scored], word: u64) -> usize
    requires some { 0 < length left.now }
    requires positive { 0 < q }
    ensures place { result ≡ epsilon_greedy_of p q left.now word }
    ensures within { result < length left.now }
{
    let parts = u64::from(q);
    if word % parts < u64::from(p) {
        at_random(left, word / parts)
    } else {
        greatest(left)
    }
}

/// The first with the greatest sum.
fn greatest(left: &[Scored]) -> usize
    requires { 0 < length left.now }
    ensures place { result ≡ greatest_of left.now }
    ensures within { result < length left.now }
{
    match left.split_first() {
        Some((first, rest)) => first_with(greatest_sum(first.sum, rest), left),
        None => 0,
    }
}

/// The greatest of a sum and these sums.
fn greatest_sum(first: i64, rest: &[Scored]) -> i64
    ensures { result ≡ greatest_from first rest.now }
{
    let mut greatest = first;
    'sums: for s in rest {
        if greatest < s.sum {
            greatest = s.sum;
        }
    }
    greatest
}

/// The first whose sum is not below a number.
fn first_with(number: i64, left: &[Scored]) -> usize
    ensures { result ≡ first_with_of number left.now }
{
    'sums: for (at, s) in left.iter().enumerate() {
        if s.sum >= number {
            return at;
        }
    }
    left.len()
}
