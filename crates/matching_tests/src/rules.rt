mod production;
mod shelf;

use shelf::{are_alike, behind_removal, found};
use std::test::Fail;

/// Two productions, and whether they have one fingerprint.
const PAIRS: &[(&str, &str, bool)] = &[
    (
        "sp {a (state <s> ^x <v>) --> (<s> ^y <v>)}",
        "sp {b (state <t> ^x <w>) --> (<t> ^y <w>)}",
        true,
    ),
    (
        "sp {a (state <s> ^x <v>) --> (<s> ^y <v>)}",
        "sp {a (state <s> ^z <v>) --> (<s> ^y <v>)}",
        false,
    ),
    (
        "sp {a (state <s> ^x 1) --> (<s> ^y 2)}",
        "sp {a (state <s> ^x 1) --> (<s> ^y -2)}",
        false,
    ),
    (
        "sp {a (state <s> ^x <v>) (<s> ^z 1) --> (write |a|)}",
        "sp {a (state <s> ^x <v>) -(<s> ^z 1) --> (write |a|)}",
        false,
    ),
];

#[test]
fn names_do_not_count_and_constants_do(rt: HostRuntime) -> Result<(), Fail> {
    for (one, other, alike) in PAIRS {
        assert!(rt;
            are_alike(rt.alloc(), one, other)? == Some(*alike),
            "{one} {other}"
        );
    }
    Ok(())
}

/// Productions under the numbers 1, 2 and so on.
const RULES: &[&str] = &[
    "sp {a (state <s> ^x <v>) --> (<s> ^y <v>)}",
    "sp {b (state <s> ^x 1) --> (<s> ^y 1)}",
    "sp {c (state <t> ^x <w>) --> (<t> ^y <w>)}",
    "sp {d (state <u> ^x <z>) --> (<u> ^y <z>)}",
];

#[test]
fn rules_of_a_fingerprint_are_found_in_order(rt: HostRuntime) -> Result<(), Fail> {
    assert!(rt;
        found(rt.alloc(), RULES, RULES[2])?.as_slice() == [1, 3, 4].as_slice()
            && behind_removal(rt.alloc(), RULES, 3, RULES[2])?.as_slice() == [1, 4].as_slice()
    );
    Ok(())
}
