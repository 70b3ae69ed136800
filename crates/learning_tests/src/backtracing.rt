mod kept;

use crate::backtracing::kept::{kept_behind, kept_firings};
use chunk_back::{backtrace, grounds};
use defs_soar::{Keeps, Step};
use soar_record::Record;
use soar_wm::Element;
use std::test::Fail;

/// Whether the elements have these tags.
fn has_tags(elements: &[Element], tags: &[u32]) -> bool {
    if elements.len() != tags.len() {
        return false;
    }
    for (element, tag) in elements.iter().zip(tags) {
        if element.tag != *tag {
            return false;
        }
    }
    true
}

/// A step by a letter, its tag or number, and the tag that it names.
fn shown(step: &Step) -> (u8, u64, u32) {
    match step {
        Step::Architecture(element) => (b'a', element.tag as u64, 0),
        Step::Item(element, named) => (b'i', element.tag as u64, *named),
        Step::Select(element, named) => (b's', element.tag as u64, *named),
        Step::Fire(firing) => (b'f', firing.number, firing.depth),
    }
}

fn are_shown(steps: &[Step], rows: &[(u8, u64, u32)]) -> bool {
    if steps.len() != rows.len() {
        return false;
    }
    for (step, row) in steps.iter().zip(rows) {
        if shown(step) != *row {
            return false;
        }
    }
    true
}

/// Whether the firing of a number is kept, with as many used elements.
fn keeps(record: &Record, number: u64, used: usize) -> bool {
    match record.firing(number) {
        Some(firing) => firing.number == number && firing.used.len() == used,
        None => false,
    }
}

#[test]
fn firings_are_found_by_number(rt: HostRuntime) -> Result<(), Fail> {
    let record = kept_firings(rt.alloc())?;
    assert!(rt; keeps(&record, 1, 2) && keeps(&record, 6, 3) && record.firing(7).is_none());
    Ok(())
}

#[test]
fn grounds_are_told_once_and_by_tag(rt: HostRuntime) -> Result<(), Fail> {
    let record = kept_firings(rt.alloc())?;
    let grounds = grounds(rt.alloc(), &record, &[6, 4, 6])?;
    assert!(rt; has_tags(grounds.as_slice(), &[5, 7]));
    Ok(())
}

#[test]
fn a_firing_alone_has_its_own_grounds(rt: HostRuntime) -> Result<(), Fail> {
    let record = kept_firings(rt.alloc())?;
    let grounds = grounds(rt.alloc(), &record, &[5, 9])?;
    assert!(rt; has_tags(grounds.as_slice(), &[1]));
    Ok(())
}

#[test]
fn each_firing_is_told_once_with_its_selection_before_it(rt: HostRuntime) -> Result<(), Fail> {
    let record = kept_firings(rt.alloc())?;
    let chain = backtrace(rt.alloc(), &record, &[6])?;
    let rows = [
        (b'a', 2, 0),
        (b'i', 3, 7),
        (b'f', 1, 2),
        (b'f', 2, 2),
        (b'f', 3, 2),
        (b's', 6, 5),
        (b'f', 4, 2),
        (b'f', 6, 2),
    ];
    assert!(rt;
        are_shown(chain.steps.as_slice(), &rows) && has_tags(chain.grounds.as_slice(), &[5, 7])
    );
    Ok(())
}

#[test]
fn a_row_keeps_the_chain_behind_a_maker_that_went_long_ago(rt: HostRuntime) -> Result<(), Fail> {
    let record = kept_behind(rt.alloc(), &[4])?;
    let chain = backtrace(rt.alloc(), &record, &[4])?;
    let rows = [
        (b'a', 2, 0),
        (b'i', 3, 7),
        (b'f', 1, 2),
        (b'f', 2, 2),
        (b'f', 3, 2),
        (b's', 6, 5),
        (b'f', 4, 2),
    ];
    assert!(rt;
        are_shown(chain.steps.as_slice(), &rows) && has_tags(chain.grounds.as_slice(), &[5, 7])
    );
    Ok(())
}

#[test]
fn a_firing_that_nothing_reaches_goes(rt: HostRuntime) -> Result<(), Fail> {
    let record = kept_behind(rt.alloc(), &[4, 9])?;
    assert!(rt; record.firing(5).is_none() && record.firing(6).is_none());
    Ok(())
}
