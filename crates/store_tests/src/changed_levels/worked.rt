// A symbol is written as a byte, and a link as the two bytes of its ends. The goals are A and B.
use level_change::LevelGraph;
use soar_sym::{List, NoMemory, Sym, Triple};
use std::alloc::Global;
use std::test::Fail;

fn symbol(name: u8) -> Sym {
    Sym::Ident {
        letter: name,
        number: 1,
    }
}

fn symbols(alloc: Global, names: &[u8]) -> Result<List<Sym>, NoMemory> {
    let mut all = List::new(alloc);
    for name in names {
        all.push(symbol(*name))?;
    }
    Ok(all)
}

/// The triples that lead from each first byte to the second.
fn links(alloc: Global, pairs: &[(u8, u8)]) -> Result<List<Triple>, NoMemory> {
    let mut triples = List::new(alloc);
    for (from, to) in pairs {
        triples.push(Triple {
            id: symbol(*from),
            attr: Sym::Word(24),
            value: symbol(*to),
            accept: false,
        })?;
    }
    Ok(triples)
}

/// Whether each of these has this level, 0 for none.
fn tells(graph: &LevelGraph, told: &[(u8, u32)]) -> bool {
    for (name, level) in told {
        if graph.level_of(symbol(*name)).unwrap_or(0) != *level {
            return false;
        }
    }
    true
}

fn change(
    alloc: Global,
    graph: &mut LevelGraph,
    gone: &[(u8, u8)],
    come: &[(u8, u8)],
    goals: &[u8],
) -> Result<(), NoMemory> {
    let gone = links(alloc, gone)?;
    let come = links(alloc, come)?;
    let goals = symbols(alloc, goals)?;
    graph.change(gone.as_slice(), come.as_slice(), goals.as_slice())
}

/// Whether these are the levels after links came, and those after some went.
fn are_levels(
    alloc: Global,
    come: &[(u8, u8)],
    first: &[(u8, u32)],
    gone: &[(u8, u8)],
    then: &[(u8, u32)],
) -> Result<bool, NoMemory> {
    let mut graph = LevelGraph::new(alloc)?;
    change(alloc, &mut graph, &[], come, b"AB")?;
    let told = tells(&graph, first);
    change(alloc, &mut graph, gone, &[], b"AB")?;
    Ok(told && tells(&graph, then))
}

#[test]
fn a_level_rises_when_the_shorter_way_goes(rt: HostRuntime) -> Result<(), Fail> {
    let come = [(b'A', b'C'), (b'C', b'D'), (b'B', b'D')];
    let told = are_levels(
        rt.alloc(),
        &come,
        &[(b'C', 1), (b'D', 1)],
        &[(b'A', b'C')],
        &[(b'C', 0), (b'D', 2)],
    )?;
    assert!(rt; told);
    Ok(())
}

#[test]
fn a_circle_that_loses_its_way_in_has_no_level(rt: HostRuntime) -> Result<(), Fail> {
    let come = [(b'A', b'C'), (b'C', b'D'), (b'D', b'E'), (b'E', b'C')];
    let told = are_levels(
        rt.alloc(),
        &come,
        &[(b'C', 1), (b'D', 1), (b'E', 1)],
        &[(b'A', b'C')],
        &[(b'C', 0), (b'D', 0), (b'E', 0)],
    )?;
    assert!(rt; told);
    Ok(())
}

#[test]
fn a_link_that_is_there_twice_stays_once(rt: HostRuntime) -> Result<(), Fail> {
    let come = [(b'A', b'C'), (b'A', b'C'), (b'C', b'D')];
    let told = are_levels(
        rt.alloc(),
        &come,
        &[(b'C', 1), (b'D', 1)],
        &[(b'A', b'C')],
        &[(b'C', 1), (b'D', 1)],
    )?;
    assert!(rt; told);
    Ok(())
}

#[test]
fn a_goal_comes_and_goes(rt: HostRuntime) -> Result<(), Fail> {
    let alloc = rt.alloc();
    let mut graph = LevelGraph::new(alloc)?;
    let come = [(b'A', b'B'), (b'B', b'C'), (b'A', b'D')];
    change(alloc, &mut graph, &[], &come, b"A")?;
    let alone = tells(&graph, &[(b'B', 1), (b'C', 1), (b'D', 1)]);
    change(alloc, &mut graph, &[], &[], b"AB")?;
    let both = tells(&graph, &[(b'B', 2), (b'C', 2), (b'D', 1)]);
    change(alloc, &mut graph, &[], &[], b"B")?;
    let lower = tells(&graph, &[(b'A', 0), (b'B', 1), (b'C', 1), (b'D', 0)]);
    assert!(rt; alone && both && lower);
    Ok(())
}
