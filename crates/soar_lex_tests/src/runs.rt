//! Runs and their classes.
use soar_lex::{Run, blank, capital, digit, run_byte, run_kind};

/// Runs of each class, and numbers to the ends of their range.
const RUNS: &[(&str, Run)] = &[
    ("-->", Run::Arrow),
    ("<<", Run::OpenSet),
    (">>", Run::CloseSet),
    ("<", Run::Sign(0)),
    (">", Run::Sign(1)),
    ("<=", Run::Sign(2)),
    (">=", Run::Sign(3)),
    ("<>", Run::Sign(4)),
    ("<=>", Run::Sign(5)),
    ("=", Run::Sign(6)),
    ("+", Run::Sign(7)),
    ("-", Run::Sign(8)),
    ("<x>", Run::Variable),
    ("<s-1*>", Run::Variable),
    ("<>>", Run::Angle(0)),
    ("<x", Run::Angle(0)),
    ("ab>c<", Run::Angle(2)),
    ("->", Run::Angle(1)),
    ("--", Run::Word),
    ("a", Run::Word),
    ("item-count", Run::Word),
    ("", Run::Word),
    ("é", Run::Word),
    ("0", Run::Number(0)),
    ("-0", Run::Number(0)),
    ("007", Run::Number(7)),
    ("+5", Run::Number(5)),
    ("-5", Run::Number(-5)),
    ("9223372036854775807", Run::Number(i64::MAX)),
    ("-9223372036854775808", Run::Number(i64::MIN)),
    ("9223372036854775808", Run::WideNumber),
    ("-9223372036854775809", Run::WideNumber),
    ("18446744073709551617", Run::WideNumber),
    ("-18446744073709551617", Run::WideNumber),
    ("000000000000000000000000000001", Run::Number(1)),
    ("1e5", Run::Float),
    ("-1E+05", Run::Float),
    ("1e", Run::Word),
    ("1e5x", Run::Word),
    ("e5", Run::Word),
    ("1a", Run::Word),
    ("+-5", Run::Word),
    ("5-", Run::Word),
];

#[test]
fn runs_are_told_apart(rt: HostRuntime) {
    for (text, kind) in RUNS {
        assert!(rt; run_kind(text.as_bytes()) == *kind, "at {text}");
    }
}

#[test]
fn bytes_are_of_their_classes(rt: HostRuntime) {
    assert!(rt; counts() == [5, 10, 26, 75]);
}

/// How many bytes are blanks, digits, capitals and bytes of runs.
fn counts() -> [u32; 4] {
    let mut counts = [0u32; 4];
    for byte in 0..=255u8 {
        counts[0] = counts[0].wrapping_add(u32::from(blank(byte)));
        counts[1] = counts[1].wrapping_add(u32::from(digit(byte)));
        counts[2] = counts[2].wrapping_add(u32::from(capital(byte)));
        counts[3] = counts[3].wrapping_add(u32::from(run_byte(byte)));
    }
    counts
}
