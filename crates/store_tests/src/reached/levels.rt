// A symbol is written as a byte, and a link as the two bytes of its ends.
use super::goals::{goals_of, symbol};
use defs_soar::Leveled;
use soar_levels::Levels;
use soar_sym::{List, NoMemory, Sym, Triple};
use std::alloc::Global;
use std::test::Fail;

/// The triples that lead from each first byte to the second.
fn links(alloc: Global, pairs: &[(u8, u8)]) -> Result<List<Triple>, NoMemory> {
    let mut triples = List::new(alloc);
    for (from, to) in pairs {
        triples.push(Triple {
            id: symbol(*from),
            attr: Sym::Word(24),
            value: symbol(*to),
            accept: false,
        })?;
    }
    Ok(triples)
}

fn told_by<L: Leveled>(levels: &L, id: Sym) -> u32 {
    levels.level_of(id).unwrap_or(0)
}

/// Whether each of these has this level, 0 for none.
fn tells(levels: &Levels, told: &[(u8, u32)]) -> bool {
    for (name, level) in told {
        if told_by(levels, symbol(*name)) != *level {
            return false;
        }
    }
    true
}

/// Whether these are the levels under goals from the top, over these links.
fn are_levels(
    alloc: Global,
    goals: &[u8],
    pairs: &[(u8, u8)],
    told: &[(u8, u32)],
) -> Result<bool, NoMemory> {
    let mut levels = Levels::new(alloc)?;
    refresh(alloc, &mut levels, goals, pairs)?;
    Ok(tells(&levels, told))
}

fn refresh(
    alloc: Global,
    levels: &mut Levels,
    goals: &[u8],
    pairs: &[(u8, u8)],
) -> Result<(), NoMemory> {
    let held = links(alloc, pairs)?;
    let goals = goals_of(alloc, goals)?;
    levels.refresh(&held, &goals)
}

#[test]
fn what_two_goals_reach_has_the_upper_level(rt: HostRuntime) -> Result<(), Fail> {
    let pairs = [(b'S', b'C'), (b'T', b'C'), (b'T', b'B'), (b'C', b'T')];
    let told = [(b'S', 1), (b'T', 2), (b'C', 1), (b'B', 2), (b'A', 0)];
    assert!(rt; are_levels(rt.alloc(), &[b'S', b'T'], &pairs, &told)?);
    Ok(())
}

#[test]
fn a_walk_does_not_go_on_through_another_goal(rt: HostRuntime) -> Result<(), Fail> {
    let pairs = [(b'S', b'T'), (b'T', b'A'), (b'T', b'S'), (b'S', b'B')];
    let told = [(b'S', 1), (b'T', 2), (b'A', 2), (b'B', 1)];
    assert!(rt; are_levels(rt.alloc(), &[b'S', b'T'], &pairs, &told)?);
    Ok(())
}

#[test]
fn a_walk_is_as_long_as_it_takes(rt: HostRuntime) -> Result<(), Fail> {
    let pairs = [(b'C', b'D'), (b'B', b'C'), (b'A', b'B'), (b'T', b'A')];
    let told = [(b'A', 2), (b'B', 2), (b'C', 2), (b'D', 2)];
    assert!(rt; are_levels(rt.alloc(), &[b'S', b'T'], &pairs, &told)?);
    Ok(())
}

#[test]
fn a_level_falls_where_an_upper_goal_comes_to_it_later(rt: HostRuntime) -> Result<(), Fail> {
    let pairs = [(b'T', b'A'), (b'A', b'B'), (b'S', b'C'), (b'C', b'A')];
    let told = [(b'A', 1), (b'B', 1), (b'C', 1), (b'T', 2)];
    assert!(rt; are_levels(rt.alloc(), &[b'S', b'T'], &pairs, &told)?);
    Ok(())
}

#[test]
fn a_cycle_ends(rt: HostRuntime) -> Result<(), Fail> {
    let pairs = [
        (b'A', b'B'),
        (b'B', b'A'),
        (b'B', b'S'),
        (b'S', b'A'),
        (b'C', b'D'),
        (b'D', b'C'),
    ];
    let told = [(b'S', 1), (b'A', 1), (b'B', 1), (b'C', 0), (b'D', 0)];
    assert!(rt; are_levels(rt.alloc(), &[b'S'], &pairs, &told)?);
    Ok(())
}

#[test]
fn only_identifiers_have_levels(rt: HostRuntime) -> Result<(), Fail> {
    let told = [(b'1', 0), (b'2', 0), (b'A', 0), (b'S', 1)];
    assert!(rt; are_levels(rt.alloc(), &[b'S'], &[(b'S', b'1'), (b'1', b'A')], &told)?);
    Ok(())
}

/// Whether levels that were found twice are the later ones.
fn are_the_later(alloc: Global) -> Result<bool, NoMemory> {
    let mut levels = Levels::new(alloc)?;
    refresh(alloc, &mut levels, &[b'S', b'T'], &[(b'T', b'A')])?;
    let before = tells(&levels, &[(b'S', 1), (b'A', 2)]);
    refresh(alloc, &mut levels, &[b'T'], &[(b'S', b'A'), (b'T', b'B')])?;
    Ok(before && tells(&levels, &[(b'S', 0), (b'T', 1), (b'A', 0), (b'B', 1)]))
}

#[test]
fn old_levels_are_forgotten(rt: HostRuntime) -> Result<(), Fail> {
    assert!(rt; are_the_later(rt.alloc())?);
    Ok(())
}
