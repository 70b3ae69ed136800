mod goals;
mod rows;
mod showing;
mod symbols;
mod walks;

use std::test::Fail;
use walks::walks;

/// Goals from the top, each with its selected operator; preferences for operators, each with the number of its goal; and the
/// goals left, with their operators and items, and what is selected at the last or met below it.
const WALKS: &[&str] = &[
    // an operator stays, and the walk goes on below
    "top:- tie:C operator:- | 1A+ 1B+ 2C+ 3A+ => top -; tie C: A B; operator A; takes A",
    "top:A operator:B operator:- | 1A+ 2B+ => top A; operator B; operator -; meets state",
    "top:A operator:B operator:C | 1A+ 2B+ 3C+ => top A; operator B; operator C; meets operator",
    // it is replaced, and what is below is cut
    "top:- tie:C operator:- | 1A+ 1B+ 2C+ 2C- 2A+ 3B+ => top -; tie A: A B; takes A",
    "top:A operator:B operator:C | 1B+ 1C+ 1B= 1C= 2B+ 3C+ => top B; draws B",
    // it ends at an impasse
    "top:A operator:B | 1A+ 1A- 1B+ 1C+ 2B+ => top -; meets tie B C",
    "top:A operator:B | 1A! 1A~ 2B+ => top -; meets constraint A",
    // an impasse that stays, and what it is about is renewed
    "top:- tie:- | 1A+ 1B+ 1C+ => top -; tie -: A B C; meets state",
    "top:- tie:- tie:- tie:- | 1A+ 1B+ 2B+ 2C+ => top -; tie -: A B; tie -: B C; meets state",
    "top:- state:- state:A operator:- | 3A+ => top -; state -; state A; operator -; meets state",
    // one that becomes another
    "top:- tie:C operator:- | 1A+ 1B+ 1A>B 1B>A 2C+ => top -; meets conflict A B",
    "top:- conflict:C | 1A+ 1B+ 2C+ => top -; meets tie A B",
    "top:- state:- operator:- | => top -; state -; meets state",
    // the top goal alone
    "top:A | 1A+ => top A; meets operator",
    "top:- | => top -; meets state",
];

#[test]
fn walks_leave_these_goals_and_end_so(rt: HostRuntime) -> Result<(), Fail> {
    for row in WALKS {
        assert!(rt; walks(rt.alloc(), row)?, "{row}");
    }
    Ok(())
}
