// Elements of working memory give way to others.
ghost use Rattle.std.specs.Prelude.{◌≡◌, ◌+◌, ◌-◌, ◌<◌, ◌≤◌, ◌^◌, ◌++◌, None, length, IfOk, OnOk};
ghost use Rattle.defs_soar.specs.Settling.{tagged};
ghost use Rattle.soar_wm.specs.WorkingMemory.{element_for, tag_of, with_triple};
ghost use Rattle.soar_settle.specs.Tagging.{AreAddable, without_each};

use crate::changes::Changes;
use defs_soar::{Goal, is_goal};
use soar_sym::{List, NoMemory, Triple};
use soar_wm::{AddFault, Element, Memory};
use std::alloc::Global;

/// Takes these elements away, and adds these triples under the next tags.
pub fn replace(
    alloc: Global,
    goals: &[Goal],
    going: List<Element>,
    triples: &[Triple],
    memory: &mut Memory,
) -> Result<Changes, NoMemory>
    requires addable { AreAddable goals.now memory.old.last (without_each memory.old.elements going) triples.now }
    requires room { length (without_each memory.old.elements going) + length triples.now ≤ memory.old.limit }
    requires left { memory.old.last + length triples.now ≤ 2 ^ 32 - 1 }
    ensures memory { OnOk result (memory.new ≡ record memory.old {
      elements = without_each memory.old.elements going ++ tagged goals.now memory.old.last triples.now;
      last = memory.old.last + length triples.now;
    }) }
    ensures gone { IfOk result (λ changes. changes.gone ≡ going) }
    ensures new { IfOk result (λ changes. changes.new ≡ tagged goals.now memory.old.last triples.now) }
{
    remove_all(memory, going.as_slice());
    let new = add_all(alloc, memory, goals, triples)?;
    Ok(Changes { gone: going, new })
}

/// Takes the elements of these tags away.
fn remove_all(memory: &mut Memory, elements: &[Element])
    ensures { memory.new ≡ record memory.old { elements = without_each memory.old.elements elements.now } }
{
    'elements: for element in elements {
        memory.remove(element.tag);
    }
}

/// Adds triples under the next tags, and gives their elements.
fn add_all(
    alloc: Global,
    memory: &mut Memory,
    goals: &[Goal],
    triples: &[Triple],
) -> Result<List<Element>, NoMemory>
    requires addable { AreAddable goals.now memory.old.last memory.old.elements triples.now }
    requires room { length memory.old.elements + length triples.now ≤ memory.old.limit }
    requires left { memory.old.last + length triples.now ≤ 2 ^ 32 - 1 }
    ensures memory { OnOk result (memory.new ≡ record memory.old {
      elements = memory.old.elements ++ tagged goals.now memory.old.last triples.now;
      last = memory.old.last + length triples.now;
    }) }
    ensures new { IfOk result (λ new. new ≡ tagged goals.now memory.old.last triples.now) }
{
    let mut new = List::from_vec(Vec::with_capacity(alloc, triples.len())?);
    'triples: for triple in triples {
        let element = add_one(memory, *triple, is_goal(goals, triple.id))?;
        new.push(element)?;
    }
    Ok(new)
}

/// Adds a triple that is new, and gives its element.
fn add_one(memory: &mut Memory, triple: Triple, of_state: bool) -> Result<Element, NoMemory>
    requires missing { tag_of triple memory.old.elements ≡ None }
    requires room { length memory.old.elements < memory.old.limit }
    requires left { memory.old.last < 2 ^ 32 - 1 }
    ensures memory { OnOk result (memory.new ≡ with_triple memory.old triple of_state) }
    ensures element { IfOk result (λ e. e ≡ element_for (memory.old.last + 1) triple of_state) }
{
    match memory.add(triple, of_state) {
        Ok(tag) => Ok(Element {
            tag,
            id: triple.id,
            attr: triple.attr,
            value: triple.value,
            accept: triple.accept,
            of_state,
        }),
        Err(AddFault::NoMemory) => Err(NoMemory),
        Err(_) => unreachable!(),
    }
}
