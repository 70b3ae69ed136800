// A triple is written as its value.
use input_memory::Inputs;
use input_queue::{Queued, changed_inputs, make_changes};
use soar_sym::architecture::NAME;
use soar_sym::{List, NoMemory, Sym, Triple, is_triple};
use std::alloc::Global;
use std::test::Fail;

/// A triple of the input link.
fn input(value: i64) -> Triple {
    Triple {
        id: Sym::Ident {
            letter: b'I',
            number: 2,
        },
        attr: NAME,
        value: Sym::Int(value),
        accept: false,
    }
}

fn inputs_of(alloc: Global, values: &[i64]) -> Result<List<Triple>, NoMemory> {
    let mut inputs = List::new(alloc);
    for value in values {
        inputs.push(input(*value))?;
    }
    Ok(inputs)
}

fn queue_of(alloc: Global, changes: &[(bool, i64)]) -> Result<List<Queued>, NoMemory> {
    let mut queue = List::new(alloc);
    for (adds, value) in changes {
        queue.push(Queued {
            adds: *adds,
            triple: input(*value),
        })?;
    }
    Ok(queue)
}

fn are(triples: &[Triple], values: &[i64]) -> bool {
    if triples.len() != values.len() {
        return false;
    }
    for (triple, value) in triples.iter().zip(values) {
        if !is_triple(*triple, input(*value)) {
            return false;
        }
    }
    true
}

/// Whether these inputs become those by these changes.
fn turn_into(
    alloc: Global,
    before: &[i64],
    changes: &[(bool, i64)],
    after: &[i64],
) -> Result<bool, NoMemory> {
    let inputs = inputs_of(alloc, before)?;
    let queue = queue_of(alloc, changes)?;
    let changed = changed_inputs(alloc, &inputs, &queue)?;
    Ok(are(changed.as_slice(), after))
}

fn kept_inputs_of(alloc: Global, values: &[i64]) -> Result<Inputs, NoMemory> {
    let mut inputs = Inputs::new(alloc);
    for value in values {
        inputs.add(input(*value))?;
    }
    Ok(inputs)
}

/// Whether these inputs become those by these changes where they are kept.
fn make_into(
    alloc: Global,
    before: &[i64],
    changes: &[(bool, i64)],
    after: &[i64],
) -> Result<bool, NoMemory> {
    let mut inputs = kept_inputs_of(alloc, before)?;
    let queue = queue_of(alloc, changes)?;
    make_changes(&mut inputs, queue.as_slice())?;
    let all = inputs.all(alloc)?;
    Ok(are(all.as_slice(), after))
}

const CHANGES: [(bool, i64); 6] = [
    (true, 4),
    (true, 1),
    (false, 2),
    (false, 9),
    (true, 2),
    (false, 3),
];

fn inputs_change(alloc: Global) -> Result<bool, NoMemory> {
    Ok(
        turn_into(alloc, &[1, 2, 3], &CHANGES, &[1, 4, 2])?
            && turn_into(alloc, &[2, 1], &[], &[2, 1])?,
    )
}

fn kept_inputs_change(alloc: Global) -> Result<bool, NoMemory> {
    Ok(
        make_into(alloc, &[1, 2, 3], &CHANGES, &[1, 4, 2])?
            && make_into(alloc, &[2, 1], &[], &[2, 1])?,
    )
}

#[test]
fn changes_are_made_in_turn(rt: HostRuntime) -> Result<(), Fail> {
    assert!(rt; inputs_change(rt.alloc())?);
    Ok(())
}

#[test]
fn changes_are_made_where_inputs_are_kept(rt: HostRuntime) -> Result<(), Fail> {
    assert!(rt; kept_inputs_change(rt.alloc())?);
    Ok(())
}
