use soar_sym::{NoMemory, Sym, Triple};
use soar_wm::{AddFault, Element, Memory};
use std::alloc::Global;
use std::test::Fail;

const S1: Sym = Sym::Ident {
    letter: b'S',
    number: 1,
};

const S2: Sym = Sym::Ident {
    letter: b'S',
    number: 2,
};

/// A triple with the words 24 and `value` as attribute and value.
fn triple(id: Sym, value: u32) -> Triple {
    Triple {
        id,
        attr: Sym::Word(24),
        value: Sym::Word(value),
        accept: false,
    }
}

fn marked(id: Sym, value: u32) -> Triple {
    Triple {
        accept: true,
        ..triple(id, value)
    }
}

fn tags_are(elements: &[Element], tags: &[u32]) -> bool {
    if elements.len() != tags.len() {
        return false;
    }
    for (element, tag) in elements.iter().zip(tags) {
        if element.tag != *tag {
            return false;
        }
    }
    true
}

/// Whether the triple is added under the tag. Where memory is wanting, it is nowhere, and gets the same tag at the next try.
fn adds(memory: &mut Memory, triple: Triple, tag: u32) -> bool {
    match memory.add(triple, false) {
        Ok(given) => given == tag,
        Err(AddFault::NoMemory) => {
            memory.find(triple).is_none()
                && memory.get(tag).is_none()
                && memory.add(triple, false) == Ok(tag)
        }
        Err(_) => false,
    }
}

/// S1 with the values 1 and 2, and S2 with 1 between them, under the tags from 7 on.
fn three(alloc: Global) -> Result<Memory, NoMemory> {
    let mut memory = Memory::new(alloc, 3, 6)?;
    if adds(&mut memory, triple(S1, 1), 7) && adds(&mut memory, triple(S2, 1), 8) {
        adds(&mut memory, triple(S1, 2), 9);
    }
    Ok(memory)
}

/// Whether the elements of S1 and all elements have these tags.
fn lists(memory: &Memory, alloc: Global, own: &[u32], all: &[u32]) -> Result<bool, NoMemory> {
    Ok(
        tags_are(memory.of_id(alloc, S1)?.as_slice(), own)
            && tags_are(memory.all(alloc)?.as_slice(), all),
    )
}

fn is_value(element: Option<Element>, value: u32) -> bool {
    match element {
        Some(element) => element.value == Sym::Word(value),
        None => false,
    }
}

#[test]
fn elements_are_found_by_tag_triple_and_identifier(rt: HostRuntime) -> Result<(), Fail> {
    let memory = three(rt.alloc())?;
    let found = is_value(memory.get(9), 2) && memory.find(triple(S2, 1)) == Some(8);
    assert!(rt; found && lists(&memory, rt.alloc(), &[7, 9], &[7, 8, 9])?);
    Ok(())
}

#[test]
fn what_is_not_there_is_not_found(rt: HostRuntime) -> Result<(), Fail> {
    let mut memory = three(rt.alloc())?;
    let by_tag = memory.get(6).is_none() && memory.remove(10).is_none();
    let by_triple = memory.find(triple(S2, 2)).is_none() && memory.find(marked(S1, 1)).is_none();
    assert!(rt; by_tag && by_triple && lists(&memory, rt.alloc(), &[7, 9], &[7, 8, 9])?);
    Ok(())
}

#[test]
fn a_triple_is_added_once(rt: HostRuntime) -> Result<(), Fail> {
    let mut memory = three(rt.alloc())?;
    // It is reported as such even where there is no room.
    let twice = memory.add(triple(S2, 1), true) == Err(AddFault::Twice(8));
    assert!(rt; twice && memory.add(marked(S2, 1), false) == Err(AddFault::Full));
    Ok(())
}

#[test]
fn a_removed_element_is_not_found(rt: HostRuntime) -> Result<(), Fail> {
    let mut memory = three(rt.alloc())?;
    let gone = is_value(memory.remove(7), 1)
        && memory.get(7).is_none()
        && memory.find(triple(S1, 1)).is_none();
    assert!(rt; gone && lists(&memory, rt.alloc(), &[9], &[8, 9])?);
    Ok(())
}

#[test]
fn a_removed_tag_is_not_given_again(rt: HostRuntime) -> Result<(), Fail> {
    let mut memory = three(rt.alloc())?;
    let again = is_value(memory.remove(9), 2) && adds(&mut memory, triple(S1, 2), 10);
    assert!(rt; again && lists(&memory, rt.alloc(), &[7, 10], &[7, 8, 10])?);
    Ok(())
}

fn ends(alloc: Global) -> Result<bool, NoMemory> {
    let mut none = Memory::new(alloc, 0, 0)?;
    let mut last = Memory::new(alloc, 9, 4_294_967_294)?;
    Ok(
        none.add(triple(S1, 1), false) == Err(AddFault::Full)
            && adds(&mut last, triple(S1, 1), 4_294_967_295)
            && last.add(triple(S1, 2), false) == Err(AddFault::TagsSpent),
    )
}

#[test]
fn room_and_tags_come_to_an_end(rt: HostRuntime) -> Result<(), Fail> {
    assert!(rt; ends(rt.alloc())?);
    Ok(())
}

fn adds_all(memory: &mut Memory, count: u32) -> bool {
    for value in 1..=count {
        if !adds(memory, triple(S1, value), value) {
            return false;
        }
    }
    true
}

fn removes_even(memory: &mut Memory, count: u32) -> bool {
    for tag in 1..=count {
        if tag % 2 == 0 && !is_value(memory.remove(tag), tag) {
            return false;
        }
    }
    true
}

fn finds_odd(memory: &Memory, count: u32) -> bool {
    for value in 1..=count {
        if memory.find(triple(S1, value)).is_some() != (value % 2 == 1) {
            return false;
        }
    }
    true
}

#[test]
fn many_elements_come_and_go(rt: HostRuntime) -> Result<(), Fail> {
    let mut memory = Memory::new(rt.alloc(), 99, 0)?;
    let done = adds_all(&mut memory, 60) && removes_even(&mut memory, 60) && finds_odd(&memory, 60);
    assert!(rt; done && memory.of_id(rt.alloc(), S1)?.len() == 30);
    Ok(())
}
