mod production;
mod shown;

use shown::{
    bare_production_is, element_is, instance_is, production_is_kept, symbols_are, word_is,
};
use soar_show::{identifier_number, is_identifier_form};
use soar_sym::Sym;
use std::test::Fail;

/// Words, each with its text.
const WORDS: &[&str] = &[
    "a => a",
    "state => state",
    "-- => --",
    "1e => 1e",
    "s1 => s1",
    "S => S",
    "S0 => S0",
    "S01 => S01",
    "S1a => S1a",
    "S1 => |S1|",
    "A4294967295 => |A4294967295|",
    "A4294967296 => A4294967296",
    "A99999999999999999999999 => A99999999999999999999999",
    "5 => |5|",
    "1e5 => |1e5|",
    "1.5 => |1.5|",
    "+ => |+|",
    "--> => |-->|",
    "<x> => |<x>|",
    "a>b => |a>b|",
    "a b => |a b|",
    " => ||",
    "é => |é|",
    r"a|b => |a\|b|",
    r"a\b => |a\\b|",
    r"é\|€ => |é\\\|€|",
];

#[test]
fn words_stand_bare_or_in_bars(rt: HostRuntime) -> Result<(), Fail> {
    for row in WORDS {
        assert!(rt; word_is(rt.alloc(), row)?, "{row}");
    }
    Ok(())
}

#[test]
fn numbers_of_identifiers_begin_with_no_zero(rt: HostRuntime) -> Result<(), Fail> {
    assert!(rt;
        is_identifier_form(b"S1")
            && !is_identifier_form(b"S01")
            && identifier_number(b"4294967295") == Some(4_294_967_295)
    );
    Ok(())
}

#[test]
fn integers_and_identifiers_are_appended(rt: HostRuntime) -> Result<(), Fail> {
    assert!(rt;
        symbols_are(
            rt.alloc(),
            "x 0 -5 9223372036854775807 -9223372036854775808 S1 Z4294967295"
        )?
    );
    Ok(())
}

#[test]
fn instances_are_named_with_their_tags(rt: HostRuntime) -> Result<(), Fail> {
    let alloc = rt.alloc();
    assert!(rt;
        instance_is(alloc, "find*block", &[], "find*block:")?
            && instance_is(alloc, "B2", &[12, 4_294_967_295], "|B2|: 12 4294967295")?
    );
    Ok(())
}

#[test]
fn elements_are_tagged_triples(rt: HostRuntime) -> Result<(), Fail> {
    let alloc = rt.alloc();
    assert!(rt;
        element_is(alloc, 6, Sym::Int(-5), false, "6: (S1 ^operator -5)")?
            && element_is(
                alloc,
                4_294_967_295,
                Sym::Word(1),
                true,
                "4294967295: (S1 ^operator nil +)"
            )?
    );
    Ok(())
}

/// Productions as they are written, worked out by hand. Each is read first.
const PRODUCTIONS: &[&str] = &[
    r#"sp {item
    "a \"b\" \\"
    :chunk
    :i-support
    (state <t> ^operator <nil> +)
    -(<t> ^tie << nil -5 >>)
    -{(<nil> ^{ <> <t> type } <=> state) -(|state| ^io 5)}
    -->
    (<t> ^operator (+ 1 (strlen none)) < <nil>)
    (write (crlf) <nil>)
    (halt)
}
"#,
    "sp {p\n    :default\n    :o-support\n    (state <s> ^a <x>)\n    -->\n    (<s> ^operator <x> +)\n    (<s> ^operator <x> = 5)\n    (<s> ^operator <x> -)\n    (<s> ^operator <x> !)\n    (<s> ^operator <x> ~)\n    (<s> ^operator <x> >)\n    (<s> ^operator <x> =)\n    (<s> ^operator <x> > <s>)\n    (<s> ^operator <x> = <s>)\n}\n",
    "sp {q\n    (state <s> ^a { < 1 > <x> <= 3 >= <x> <> nil <=> 2 <x> })\n    -->\n    (<s> ^(concat a <x>) (ifeq <x> 1 (abs -2) (mod 7 (div 4 2))) +)\n}\n",
    "sp {|5|\n    (state <s> ^a <x>)\n    -->\n    (write |a b|)\n}\n",
];

#[test]
fn fields_without_tests_are_empty_braces(rt: HostRuntime) -> Result<(), Fail> {
    assert!(rt;
        bare_production_is(
            rt.alloc(),
            "sp {-5\n    :justification\n    ({ } ^{ } { })\n    -->\n}\n"
        )?
    );
    Ok(())
}

#[test]
fn productions_are_written_in_lines(rt: HostRuntime) -> Result<(), Fail> {
    for text in PRODUCTIONS {
        assert!(rt; production_is_kept(rt.alloc(), text)?, "{text}");
    }
    Ok(())
}
