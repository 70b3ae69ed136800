mod changes;

use changes::tells;
use soar_prefs::{PrefFault, PrefKind, Preference, Prefs, Wish};
use soar_sym::{NoMemory, Sym, Triple};
use std::alloc::Global;
use std::test::Fail;

const S1: Sym = Sym::Ident {
    letter: b'S',
    number: 1,
};

const S2: Sym = Sym::Ident {
    letter: b'S',
    number: 2,
};

const COLOR: Sym = Sym::Word(24);

const SHAPE: Sym = Sym::Word(25);

/// An acceptable preference.
fn wish(id: Sym, attr: Sym, value: i64) -> Wish {
    Wish {
        id,
        attr,
        value: Sym::Int(value),
        kind: PrefKind::Accept,
        referent: None,
    }
}

/// A preference of S1 for a colour over another.
fn better(value: i64, other: i64) -> Wish {
    Wish {
        kind: PrefKind::Better,
        referent: Some(Sym::Int(other)),
        ..wish(S1, COLOR, value)
    }
}

fn row(firing: u64, wish: Wish, operator_support: bool) -> Preference {
    Preference {
        firing,
        wish,
        operator_support,
    }
}

/// Whether the row is added. Where memory is wanting, there are as many rows as before, and it is added at the next try.
fn adds(prefs: &mut Prefs, row: Preference) -> bool {
    let rows = prefs.len();
    match prefs.add(row) {
        Ok(()) => true,
        Err(PrefFault::NoMemory) => prefs.len() == rows && prefs.add(row) == Ok(()),
        Err(PrefFault::Full) => false,
    }
}

/// Whether the colours of an identifier have rows of these firings, in order.
fn has_firings(prefs: &Prefs, alloc: Global, id: Sym, firings: &[u64]) -> Result<bool, NoMemory> {
    let slot = prefs.slot(alloc, id, COLOR)?;
    if slot.len() != firings.len() {
        return Ok(false);
    }
    for (row, firing) in slot.as_slice().iter().zip(firings) {
        if row.firing != *firing {
            return Ok(false);
        }
    }
    Ok(true)
}

/// The sum of the firings of all rows.
fn sum_of_firings(prefs: &Prefs) -> u64 {
    let mut sum: u64 = 0;
    for row in prefs.rows() {
        sum = sum.saturating_add(row.preference().firing);
    }
    sum
}

/// Rows of S1 for the colours 2 and 1, a shape of S1 and a colour of S2 between them.
fn four(alloc: Global) -> Result<Prefs, NoMemory> {
    let mut prefs = Prefs::new(alloc, 5)?;
    let first = adds(&mut prefs, row(5, wish(S1, COLOR, 2), false))
        && adds(&mut prefs, row(6, wish(S1, SHAPE, 1), false));
    if first && adds(&mut prefs, row(7, wish(S2, COLOR, 1), false)) {
        adds(&mut prefs, row(4, wish(S1, COLOR, 1), true));
    }
    Ok(prefs)
}

fn is_in_order(alloc: Global) -> Result<bool, NoMemory> {
    let prefs = four(alloc)?;
    let own = has_firings(&prefs, alloc, S1, &[5, 4])?;
    Ok(own && has_firings(&prefs, alloc, S2, &[7])?)
}

#[test]
fn a_slot_has_its_rows_in_order_of_adding(rt: HostRuntime) -> Result<(), Fail> {
    assert!(rt; is_in_order(rt.alloc())?);
    Ok(())
}

fn are_listed(alloc: Global) -> Result<bool, NoMemory> {
    let prefs = four(alloc)?;
    let all = prefs.all(alloc)?.len();
    Ok(sum_of_firings(&prefs) == 22 && all == prefs.len())
}

#[test]
fn all_rows_are_listed(rt: HostRuntime) -> Result<(), Fail> {
    assert!(rt; are_listed(rt.alloc())?);
    Ok(())
}

fn is_full(prefs: &mut Prefs) -> bool {
    // It is there under another firing, and so needs no room.
    adds(prefs, row(1, wish(S2, SHAPE, 1), true))
        && adds(prefs, row(2, wish(S2, SHAPE, 1), true))
        && prefs.add(row(2, wish(S2, SHAPE, 1), false)) == Err(PrefFault::Full)
        && prefs.add(row(2, wish(S2, SHAPE, 2), true)) == Err(PrefFault::Full)
}

fn is_four_full(alloc: Global) -> Result<bool, NoMemory> {
    let mut prefs = four(alloc)?;
    Ok(is_full(&mut prefs) && prefs.len() == 5)
}

#[test]
fn there_are_at_most_as_many_rows_as_the_limit(rt: HostRuntime) -> Result<(), Fail> {
    assert!(rt; is_four_full(rt.alloc())?);
    Ok(())
}

/// Those with instance support do not count, and another referent or kind makes another row.
fn adds_better(prefs: &mut Prefs) -> bool {
    adds(prefs, row(1, better(1, 2), false))
        && adds(prefs, row(1, better(1, 2), false))
        && adds(prefs, row(2, better(1, 2), true))
        && adds(prefs, row(3, better(1, 2), true))
        && adds(prefs, row(4, better(1, 3), true))
        && adds(prefs, row(5, wish(S1, COLOR, 1), true))
}

fn keeps_once(alloc: Global) -> Result<bool, NoMemory> {
    let mut prefs = Prefs::new(alloc, 9)?;
    Ok(adds_better(&mut prefs) && has_firings(&prefs, alloc, S1, &[1, 1, 2, 4, 5])?)
}

#[test]
fn only_an_operator_supported_row_is_kept_once(rt: HostRuntime) -> Result<(), Fail> {
    assert!(rt; keeps_once(rt.alloc())?);
    Ok(())
}

fn retracts_two(alloc: Global) -> Result<bool, NoMemory> {
    let mut prefs = Prefs::new(alloc, 9)?;
    let added = adds_better(&mut prefs) && adds(&mut prefs, row(2, better(3, 1), false));
    prefs.retract(1);
    prefs.retract(2);
    Ok(added && has_firings(&prefs, alloc, S1, &[2, 4, 5])?)
}

#[test]
fn a_retracted_firing_leaves_its_operator_supported_rows(rt: HostRuntime) -> Result<(), Fail> {
    assert!(rt; retracts_two(rt.alloc())?);
    Ok(())
}

fn rejects(alloc: Global) -> Result<bool, NoMemory> {
    let mut prefs = Prefs::new(alloc, 9)?;
    let added = adds_better(&mut prefs) && adds(&mut prefs, row(6, better(2, 1), true));
    prefs.reject_now(Triple {
        id: S1,
        attr: COLOR,
        value: Sym::Int(1),
        accept: true,
    });
    Ok(added && has_firings(&prefs, alloc, S1, &[6])?)
}

#[test]
fn a_reject_takes_rows_of_all_kinds_of_its_triple(rt: HostRuntime) -> Result<(), Fail> {
    assert!(rt; rejects(rt.alloc())?);
    Ok(())
}

fn drops_rows(alloc: Global) -> Result<bool, NoMemory> {
    let mut prefs = four(alloc)?;
    // That an identifier is the value of a row does not make the row its own.
    let pointing = Wish {
        value: S1,
        ..wish(S2, COLOR, 1)
    };
    let added = adds(&mut prefs, row(8, pointing, false));
    prefs.drop_id(S1);
    Ok(added && prefs.len() == 2 && has_firings(&prefs, alloc, S2, &[7, 8])?)
}

#[test]
fn a_dropped_identifier_takes_its_rows_along(rt: HostRuntime) -> Result<(), Fail> {
    assert!(rt; drops_rows(rt.alloc())?);
    Ok(())
}

/// Adds rows of as many values, each of a firing of its own, and then retracts each second firing.
fn comes_and_goes(prefs: &mut Prefs, count: u64) -> bool {
    for firing in 1..=count {
        if !adds(prefs, row(firing, wish(S1, COLOR, 1), false)) {
            return false;
        }
    }
    for firing in 1..=count {
        if firing % 2 == 0 {
            prefs.retract(firing);
        }
    }
    true
}

fn leaves_each_second(alloc: Global) -> Result<bool, NoMemory> {
    let mut prefs = Prefs::new(alloc, 99)?;
    let done = comes_and_goes(&mut prefs, 40) && sum_of_firings(&prefs) == 400;
    Ok(done && prefs.slot(alloc, S1, COLOR)?.len() == 20)
}

#[test]
fn many_rows_come_and_go(rt: HostRuntime) -> Result<(), Fail> {
    assert!(rt; leaves_each_second(rt.alloc())?);
    Ok(())
}

/// What is done, and the colours whose rows came or went by it, each with `+` where rows hold it up.
const CHANGES: &[&str] = &[
    "=>",
    "1+1 2+2 => 1+ 2+",
    "=>",
    // another row for it is a change too
    "3+2 => 2+",
    "1. => 1",
    // a reject comes and goes
    "4-2 => 2",
    "4. => 2+",
    // what came and went is told
    "5+3 5. => 3 3",
    "6+1 2! => 1+ 2 2",
    "2! 9. =>",
    "7+3 S1 => 3 1 3",
    "=>",
];

/// The first row that is not so, if any.
fn first_wrong(alloc: Global) -> Result<&'static str, NoMemory> {
    let mut prefs = Prefs::new(alloc, 9)?;
    for row in CHANGES {
        if !tells(&mut prefs, alloc, row)? {
            return Ok(row);
        }
    }
    Ok("")
}

#[test]
fn changes_are_told_since_they_were_last_taken(rt: HostRuntime) -> Result<(), Fail> {
    let wrong = first_wrong(rt.alloc())?;
    assert!(rt; wrong.is_empty(), "{wrong}");
    Ok(())
}
