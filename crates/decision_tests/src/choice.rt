mod choices;
mod decisions;
mod draws;
mod slot;
mod symbols;

use choices::gives;
use decisions::decides;
use draws::draws;
use std::test::Fail;

/// The preferences of a slot for values such as A, B, 7 and nil, and what is left of them, with the sums of numbers.
const CHOICES: &[&str] = &[
    // worked by hand
    "A+ B+ A>B B>A => conflict A B",
    "A+ B+ A>B B>A C+ => left C",
    "A+ B+ A- A>B => left B",
    "B+ A+ A< B< => tie A B",
    "A! A~ => constraint A",
    "A+ A- => none",
    // indifference is of every pair
    "A+ B+ A= B= => left A B",
    "A+ B+ A= => tie A B",
    "A+ B+ C+ A= B= A=C => tie A B C",
    "A+ B+ C+ A= B= A=C C=B => left A B C",
    "A+ B+ A=5 A=-2 B=-7 => left A=3 B=-7",
    "A+ B+ A=4 B= => left A=4 B",
    // better and worse are among candidates
    "A+ B+ C+ A>B C<A => left A",
    "A+ B+ C+ A>B B>C C>A => conflict A B C",
    "B+ A+ A<A A>A => tie A B",
    "A+ B+ C+ A- A>B C<A C=B => left B C",
    // best and worst are among the unbeaten
    "A+ B+ C+ B> C> C< => left B",
    "A+ B+ C+ A> A< => left A",
    "A+ B+ C+ A< => tie B C",
    "A+ B+ C+ A> A~ => tie B C",
    // require goes before all else
    "A! B+ C+ C> A=9 => left A=9",
    "B! A! => constraint A B",
    "B! B~ A+ => constraint B",
    "A! A- => left A",
    "A+ A~ B+ B- => none",
    // values are in symbol order, each once
    "nil+ 7+ B2+ io+ A+ -7+ B+ A+ => tie A B B2 -7 7 io nil",
    "nil+ 7+ B2+ io+ A+ -7+ B+ A+ B= 7= A+ io+ nil+ B2= C+ C- A=B 7+ -7+ => tie A B B2 -7 7 io nil",
];

#[test]
fn rows_of_preferences_leave_these_values(rt: HostRuntime) -> Result<(), Fail> {
    for row in CHOICES {
        assert!(rt; gives(rt.alloc(), row)?, "{row}");
    }
    Ok(())
}

/// A mode, a word of the random queue, the sums of the candidates, and the place that is drawn.
const DRAWS: &[&str] = &[
    // by weight: the first running sum that exceeds the word's remainder
    "softmax 0: 2 3 5 => 0",
    "softmax 4: 2 3 5 => 1",
    "softmax 9: 2 3 5 => 2",
    "softmax 10: 2 3 5 => 0",
    "softmax 1: 2 0 3 => 0",
    "softmax 2: 2 0 3 => 2",
    "softmax 4: 2 0 3 => 2",
    "softmax 5: 2 0 3 => 0",
    // no weights: each with the same chance
    "softmax 5: -1 3 => 1",
    "softmax 4: -1 3 => 0",
    "softmax 18446744073709551615: 0 0 0 => 0",
    "softmax 18446744073709551614: 0 0 0 => 2",
    // the greatest is the first of its equals
    "1/2 4: 2 3 5 => 2",
    "1/2 5: 2 3 5 => 2",
    "1/2 6: 2 3 5 => 0",
    "1/2 5: 5 5 2 => 0",
    // at the ends of the ranges
    "softmax 999999999999999: 1000000000000000 1000000000000000 => 0",
    "softmax 1000000000000000: 1000000000000000 1000000000000000 => 1",
    "softmax 2000000000000000: 1000000000000000 1000000000000000 => 0",
    "softmax 18446744073709551615: -1000000000000000 1000000000000000 => 1",
    "softmax 18446744073709551614: -1000000000000000 1000000000000000 => 0",
    "first 18446744073709551615: -1000000000000000 1000000000000000 => 0",
    "last 18446744073709551615: -1000000000000000 1000000000000000 => 1",
    "1/1 18446744073709551615: -1000000000000000 1000000000000000 => 1",
    "1/1 18446744073709551614: -1000000000000000 1000000000000000 => 0",
    "0/1 18446744073709551615: -1000000000000000 1000000000000000 => 1",
    "0/1 18446744073709551614: -1000000000000000 1000000000000000 => 1",
    "1/3 18446744073709551615: -1000000000000000 1000000000000000 => 1",
    "first 18446744073709551615: -1000000000000000 => 0",
    "last 18446744073709551615: -1000000000000000 => 0",
    "softmax 18446744073709551615: -1000000000000000 => 0",
    "1/2 18446744073709551615: -1000000000000000 => 0",
    "1/2 18446744073709551614: -1000000000000000 => 0",
    "first 0: 2 3 5 => 0",
    "last 0: 2 3 5 => 2",
    "4294967295/4294967295 7: 2 3 5 => 0",
    "0/4294967295 7: 2 3 5 => 2",
    "1/4294967295 1: 2 3 5 => 2",
];

#[test]
fn words_of_the_random_queue_draw_these_places(rt: HostRuntime) -> Result<(), Fail> {
    for row in DRAWS {
        assert!(rt; draws(rt.alloc(), row)?, "{row}");
    }
    Ok(())
}

/// A selected operator, a mode and a random word, the preferences for operators, and what the goal comes to.
const DECISIONS: &[&str] = &[
    "- softmax 0: A+ => takes A, the first",
    "A softmax 1: A+ B+ A= B= => stays",
    "A softmax 1: A+ B+ A- => takes B, the second",
    "- softmax 1: A+ B+ A= B= => draws B, the second",
    "- last 0: A+ B+ A= B= => takes B, the second",
    "- first 1: B! => takes B, the first",
    "A first 0: A+ B+ A= => tie A B",
    "A first 0: A+ A- => no change",
    "- first 0: A+ B+ A>B B>A => conflict A B",
    "- first 0: A! A~ => constraint A",
];

#[test]
fn goals_come_to_these_outcomes(rt: HostRuntime) -> Result<(), Fail> {
    for row in DECISIONS {
        assert!(rt; decides(rt.alloc(), row)?, "{row}");
    }
    Ok(())
}
