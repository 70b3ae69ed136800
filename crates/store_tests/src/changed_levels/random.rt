// Random changes, each against levels that are told anew.
use level_change::LevelGraph;
use level_graph::{Links, Marks, add_triples, from_last, spread, tell_goals};
use soar_sym::{List, NoMemory, Sym, Triple, is_triple};
use std::alloc::Global;
use std::test::Fail;

fn node(number: u32) -> Sym {
    Sym::Ident { letter: 78, number }
}

/// The next number of a sequence that looks like chance.
fn after(seed: u32) -> u32 {
    seed.wrapping_mul(1664525).wrapping_add(1013904223)
}

fn triple_of(seed: u32) -> Triple {
    Triple {
        id: node((seed >> 8) % 14),
        attr: Sym::Word((seed >> 24) % 2),
        value: node((after(seed) >> 8) % 14),
        accept: false,
    }
}

/// The triples without one, each time that it is among them.
fn without(alloc: Global, held: &[Triple], triple: Triple) -> Result<List<Triple>, NoMemory> {
    let mut rest = List::new(alloc);
    for other in held {
        if !is_triple(triple, *other) {
            rest.push(*other)?;
        }
    }
    Ok(rest)
}

/// Takes a triple away that is there, and adds one that is not.
fn toggle(
    alloc: Global,
    held: &mut List<Triple>,
    triple: Triple,
    gone: &mut List<Triple>,
    come: &mut List<Triple>,
) -> Result<(), NoMemory> {
    let rest = without(alloc, held.as_slice(), triple)?;
    if rest.len() < held.len() {
        gone.push(triple)?;
        *held = rest;
    } else {
        come.push(triple)?;
        held.push(triple)?;
    }
    Ok(())
}

/// From one to four goals.
fn goals_of(alloc: Global, seed: u32) -> Result<List<Sym>, NoMemory> {
    let mut goals = List::new(alloc);
    for number in 0..1 + (seed >> 16) % 4 {
        goals.push(node(number))?;
    }
    Ok(goals)
}

/// The levels, told anew.
fn anew(alloc: Global, triples: &[Triple], goals: &[Sym]) -> Result<Marks, NoMemory> {
    let mut marks = Marks::new(alloc);
    let mut links = Links::new(alloc);
    add_triples(&mut marks, &mut links, triples)?;
    tell_goals(&mut marks, goals)?;
    let mut waiting = from_last(alloc, goals)?;
    spread(&mut marks, &links, goals, &mut waiting)?;
    Ok(marks)
}

fn agrees(graph: &LevelGraph, marks: &Marks) -> bool {
    for number in 0..14 {
        if graph.level_of(node(number)) != marks.get(node(number)) {
            return false;
        }
    }
    true
}

/// Changes up to three triples and the goals, and answers whether the levels are as told anew.
fn is_right(
    alloc: Global,
    graph: &mut LevelGraph,
    held: &mut List<Triple>,
    seed: u32,
) -> Result<bool, NoMemory> {
    let mut gone = List::new(alloc);
    let mut come = List::new(alloc);
    toggle(alloc, held, triple_of(seed), &mut gone, &mut come)?;
    if seed % 3 > 0 {
        toggle(
            alloc,
            held,
            triple_of(after(after(seed))),
            &mut gone,
            &mut come,
        )?;
    }
    let goals = goals_of(alloc, seed)?;
    graph.change(gone.as_slice(), come.as_slice(), goals.as_slice())?;
    let marks = anew(alloc, held.as_slice(), goals.as_slice())?;
    Ok(agrees(graph, &marks))
}

#[test]
fn random_changes_give_what_is_told_anew(rt: HostRuntime) -> Result<(), Fail> {
    let mut graph = LevelGraph::new(rt.alloc())?;
    let mut held = List::new(rt.alloc());
    let mut seed = 12345;
    let mut right = true;
    for _ in 0..600 {
        seed = after(after(after(after(seed))));
        right = is_right(rt.alloc(), &mut graph, &mut held, seed)? && right;
    }
    assert!(rt; right);
    Ok(())
}
