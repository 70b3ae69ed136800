// Lists of calls by a small fixed generator.
use super::calls::{Call, triple_of};
use soar_sym::NoMemory;
use std::alloc::Global;

const IDENTIFIERS: [u8; 3] = *b"STU";

const ATTRIBUTES: [u8; 3] = *b"abc";

const VALUES: [u8; 4] = *b"STU1";

/// A number below this, which is not 0. The seeds go by the generator of Park and Miller.
fn below(seed: &mut u64, bound: u64) -> u64 {
    *seed = (*seed % 2_147_483_647) * 48_271 % 2_147_483_647;
    *seed / 64 % bound.max(1)
}

fn choice(seed: &mut u64, letters: &[u8]) -> u8 {
    let place = below(seed, letters.len() as u64) as usize;
    letters.get(place).copied().unwrap_or(b'S')
}

/// One call in seven loads or excises one of four rules, three are of live firings, and the others add and remove triples.
fn next_call(seed: &mut u64) -> Call {
    let kind = below(seed, 14);
    if kind < 2 {
        let number = below(seed, 4).saturating_add(1);
        return if kind == 0 {
            Call::Load(number)
        } else {
            Call::Excise(number)
        };
    }
    match kind {
        2 | 3 => return Call::Fire,
        4 => return Call::Retract,
        5 => return Call::Forget,
        _ => {}
    }
    let id = choice(seed, &IDENTIFIERS);
    let attr = choice(seed, &ATTRIBUTES);
    let value = choice(seed, &VALUES);
    let triple = triple_of(id, attr, value);
    if kind < 10 {
        Call::Add(triple)
    } else {
        Call::Remove(triple)
    }
}

/// So many calls from a seed.
pub fn random_calls(alloc: Global, seed: u64, count: usize) -> Result<Vec<Call>, NoMemory> {
    let mut seed = seed;
    let mut calls = Vec::new(alloc);
    for _ in 0..count {
        calls.push(next_call(&mut seed))?;
    }
    Ok(calls)
}
