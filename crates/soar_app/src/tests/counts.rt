// Numbers at their ends.
use defs_soar::Which;
use learned_firings::next_count;
use soar_sym::Letters;
use wave_parts::{Stop, count_more};

const LAST_IDENTIFIER: u32 = 4_294_967_295;

const LAST_COUNT: u64 = 18_446_744_073_709_551_615;

/// Checks that a letter gives its last number, and then none.
fn letters_end() -> bool {
    let mut letters = Letters::new();
    letters.starting(b'Q', LAST_IDENTIFIER - 1);
    letters.next(b'Q').is_ok()
        && letters.last(b'Q') == LAST_IDENTIFIER
        && letters.next(b'Q').is_err()
        && letters.last(b'Q') == LAST_IDENTIFIER
        && letters.next(b'R').is_ok()
}

/// Checks that a count reaches its last value, and nothing above.
fn counts_end() -> bool {
    let over = Err(Stop::Limit(Which::Counts));
    count_more(LAST_COUNT - 3, 3) == Ok(LAST_COUNT)
        && count_more(LAST_COUNT - 3, 4) == over
        && next_count(LAST_COUNT - 1) == Ok(LAST_COUNT)
        && next_count(LAST_COUNT) == over
}

#[test]
fn letters_and_counts_come_to_an_end(rt: HostRuntime) {
    assert!(rt; letters_end() && counts_end());
}
