mod called;
mod production;
mod render;
mod run;

use called::gives_called;
use run::{fired, fires_to, gives, makes_a_word};
use soar_fire::FireFault;
use soar_rule::Func;
use soar_sym::SymTable;
use std::alloc::Global;
use std::test::Fail;

/// Sums, products, differences, quotients, remainders and sizes, each in the value of one action.
const NUMBERS: &[&str] = &[
    "(+ 1 2 3) => 6",
    "(+ 9223372036854775807 1) => overflow",
    "(+ -9223372036854775808 -1 1) => overflow",
    "(+ 1 nil) => not a number",
    "(* 4 -5) => -20",
    "(* -9223372036854775808 -1) => overflow",
    "(- 5) => -5",
    "(- -9223372036854775808) => overflow",
    "(- 10 3 4) => 3",
    "(- nil) => not a number",
    "(- nil 1) => not a number",
    "(div -7 2) => -3",
    "(div 7 -2) => -3",
    "(div 1 0) => zero divisor",
    "(div -9223372036854775808 -1) => overflow",
    "(div nil 0) => not a number",
    "(mod -7 3) => -1",
    "(mod 7 -3) => 1",
    "(mod -9223372036854775808 -1) => 0",
    "(mod 5 0) => zero divisor",
    "(abs -5) => 5",
    "(abs -9223372036854775808) => overflow",
];

#[test]
fn functions_of_numbers(rt: HostRuntime) -> Result<(), Fail> {
    for row in NUMBERS {
        assert!(rt; gives(rt.alloc(), row)?, "{row}");
    }
    Ok(())
}

/// The other functions.
const SYMBOLS: &[&str] = &[
    "(abs nil) => not a number",
    "(min 3 -2 5) => -2",
    "(min 1 <s>) => not a number",
    "(max 3 -2 5) => 5",
    "(ifeq nil nil 2 3) => 2",
    "(ifeq nil io 3 2) => 2",
    "(strlen |é|) => 2",
    "(strlen <s>) => 2",
    "(strlen -2) => 2",
    "(concat nil -7 <s> io) => nil-7S1io",
    "(concat io) => io",
    "(crlf) => \n",
    "(strlen (crlf)) => 1",
    "(concat (+ 1 2) (crlf)) => 3\n",
];

#[test]
fn functions_of_symbols_and_texts(rt: HostRuntime) -> Result<(), Fail> {
    for row in SYMBOLS {
        assert!(rt; gives(rt.alloc(), row)?, "{row}");
    }
    Ok(())
}

/// Functions of so many ones. No text spells them: reading refuses them.
const CALLS: [(Func, usize, &str); 10] = [
    (Func::Plus, 0, "0"),
    (Func::Times, 0, "1"),
    (Func::Minus, 0, "not a number"),
    (Func::Max, 0, "not a number"),
    (Func::Concat, 0, ""),
    (Func::Div, 1, "not a number"),
    (Func::Mod, 3, "not a number"),
    (Func::Abs, 2, "not a number"),
    (Func::IfEq, 3, "not a number"),
    (Func::StrLen, 2, "not a number"),
];

#[test]
fn functions_of_too_few_and_too_many_values(rt: HostRuntime) -> Result<(), Fail> {
    for (func, count, wanted) in CALLS {
        assert!(rt;
            gives_called(rt.alloc(), func, count, wanted)?,
            "{count} give {wanted}"
        );
    }
    Ok(())
}

/// Actions of the condition `(<s> ^nil <x>)`, where `<s>` is S1, a goal, and `<x>` is 5.
const ACTIONS: &[&str] = &[
    // each preference of an operator
    "(<s> ^operator <o> +) => S1 operator O1 +",
    "(<s> ^operator <o> -) => S1 operator O1 -",
    "(<s> ^operator <o> !) => S1 operator O1 !",
    "(<s> ^operator <o> ~) => S1 operator O1 ~",
    "(<s> ^operator <o> > <s>) => S1 operator O1 > S1",
    "(<s> ^operator <o> < <s>) => S1 operator O1 < S1",
    "(<s> ^operator <o> >) => S1 operator O1 >",
    "(<s> ^operator <o> <) => S1 operator O1 <",
    "(<s> ^operator <o> =) => S1 operator O1 =",
    "(<s> ^operator <o> = <s>) => S1 operator O1 = S1",
    "(<s> ^operator <o> = -1000000000) => S1 operator O1 number -1000000000",
    // the causes for which an action is dropped, and its place
    "(<s> ^operator <o> = 1000000001) => 1 out of range",
    "(<s> ^operator nil +) => 1 not an operator",
    "(<s> ^nil <o> > <s>) => 1 not an operator",
    "(<x> ^(div 1 0) nil) => 1 not an identifier",
    "(<s> ^nil nil) (<s> ^nil (div 1 0)) => S1 nil nil +; 2 zero divisor",
    // what a dropped action bound stays bound
    "(<s> ^nil <o> > <s>) (<o> ^nil <o>) => O1 nil O1 +; 1 not an operator",
    // texts, and a halt
    "(write io <x> (crlf) <new>) (<new> ^nil <x> -) (halt) => N1 nil 5 -; io5\nN1; halts",
    "(write (div 1 0)) => 1 zero divisor",
    // the letters of new identifiers
    "(<n> ^nil <n>) (<n> ^io <n>) => N1 nil N1 +; N1 io N1 +",
    "(<n> ^nil <not>) => N1 nil N2 +",
    "(<Z1> ^nil nil) => Z1 nil nil +",
    "(<operator-x> ^nil nil) => O1 nil nil +",
    "(<9> ^nil nil) => I1 nil nil +",
];

#[test]
fn actions(rt: HostRuntime) -> Result<(), Fail> {
    for row in ACTIONS {
        assert!(rt; fires_to(rt.alloc(), row)?, "{row}");
    }
    Ok(())
}

/// A word of 1 MiB, and more behind it.
fn long_word(alloc: Global, behind: &str) -> Result<String, Fail> {
    let mut text = String::from_str(alloc, "(concat |")?;
    for _ in 0..65_536 {
        text.push_str("sixteen bytes...")?;
    }
    text.push_str("| |")?;
    text.push_str(behind)?;
    text.push_str("|)")?;
    Ok(text)
}

#[test]
fn a_word_has_at_most_one_mebibyte(rt: HostRuntime) -> Result<(), Fail> {
    let alloc = rt.alloc();
    let most = long_word(alloc, "")?;
    let more = long_word(alloc, "1")?;
    assert!(rt; makes_a_word(alloc, &most)? && !makes_a_word(alloc, &more)?);
    Ok(())
}

#[test]
fn no_identifier_is_left(rt: HostRuntime) -> Result<(), Fail> {
    let alloc = rt.alloc();
    let mut table = SymTable::new(alloc)?;
    let made = fired(alloc, &mut table, 4_294_967_295, "(<new> ^nil nil)");
    assert!(rt; matches!(made, Err(FireFault::IdsSpent)));
    Ok(())
}
