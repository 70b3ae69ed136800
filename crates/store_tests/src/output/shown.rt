// A symbol is written as a byte, O for the output link, and a link as the two bytes of its ends.
use defs_soar::{Goal, Impasse};
use output_link::output_of;
use soar_sym::{List, NoMemory, Sym, Triple, is_triple};
use soar_wm::Memory;
use std::alloc::Global;
use std::test::Fail;

/// The identifier of the output link, or that of this letter and of number 1, or the integer of this digit.
const fn symbol(name: u8) -> Sym {
    match name {
        b'O' => Sym::Ident {
            letter: b'I',
            number: 3,
        },
        b'0'..=b'9' => Sym::Int(name as i64),
        letter => Sym::Ident { letter, number: 1 },
    }
}

fn link(from: u8, to: u8) -> Triple {
    Triple {
        id: symbol(from),
        attr: Sym::Word(24),
        value: symbol(to),
        accept: false,
    }
}

fn memory_of(alloc: Global, links: &[(u8, u8)]) -> Result<Memory, NoMemory> {
    let mut memory = Memory::new(alloc, 100, 0)?;
    for (from, to) in links {
        if memory.add(link(*from, *to), false).is_err() {
            return Err(NoMemory);
        }
    }
    Ok(memory)
}

fn goals_of(alloc: Global, names: &[u8]) -> Result<List<Goal>, NoMemory> {
    let mut goals = List::new(alloc);
    for name in names {
        goals.push(Goal {
            id: symbol(*name),
            impasse: Impasse::Top,
            items: List::new(alloc),
            selected: None,
        })?;
    }
    Ok(goals)
}

fn are(triples: &[Triple], links: &[(u8, u8)]) -> bool {
    if triples.len() != links.len() {
        return false;
    }
    for (triple, (from, to)) in triples.iter().zip(links) {
        if !is_triple(*triple, link(*from, *to)) {
            return false;
        }
    }
    true
}

/// Whether just these links are shown, of these and under these goals.
fn shows(
    alloc: Global,
    goals: &[u8],
    links: &[(u8, u8)],
    shown: &[(u8, u8)],
) -> Result<bool, NoMemory> {
    let memory = memory_of(alloc, links)?;
    let goals = goals_of(alloc, goals)?;
    let triples = output_of(alloc, &memory, &goals)?;
    Ok(are(triples.as_slice(), shown))
}

const LINKS: [(u8, u8); 8] = [
    (b'B', b'1'),
    (b'S', b'O'),
    (b'A', b'S'),
    (b'O', b'A'),
    (b'A', b'B'),
    (b'S', b'C'),
    (b'C', b'2'),
    (b'A', b'3'),
];

/// Whether walks go on through no goal but the output link, whose own links are shown where it is no goal.
fn walks_stop_at_goals(alloc: Global) -> Result<bool, NoMemory> {
    let all = [
        (b'B', b'1'),
        (b'A', b'S'),
        (b'O', b'A'),
        (b'A', b'B'),
        (b'A', b'3'),
    ];
    let of_no_goal = [(b'A', b'S'), (b'A', b'B'), (b'A', b'3')];
    Ok(
        shows(alloc, &[b'S'], &LINKS, &all)?
            && shows(alloc, &[b'S', b'B', b'O'], &LINKS, &of_no_goal)?,
    )
}

#[test]
fn what_walks_reach_past_no_goal_is_shown(rt: HostRuntime) -> Result<(), Fail> {
    assert!(rt; walks_stop_at_goals(rt.alloc())?);
    Ok(())
}
