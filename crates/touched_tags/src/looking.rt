// Which triples are looked at.
ghost use Rattle.std.specs.Prelude.{◌≡◌, ◌++◌, map, IfOk, OnOk};
ghost use Rattle.soar_wm.specs.WorkingMemory.{elements_of, triple_of};
ghost use Rattle.touched_tags.specs.Looked.{IsLooked, both_marks, marks_of, triples_of, with_mark};

use crate::changed_goals::changed_goals;
use defs_soar::Goal;
use soar_sym::{List, NoMemory, Sym, Triple};
use soar_wm::{Element, Memory};
use std::alloc::Global;

/// The named triples, unmarked and marked, and those that elements of identifiers have which became goals
/// or are none any more.
pub fn looked_at(
    alloc: Global,
    before: &[Sym],
    goals: &[Goal],
    touched: &[Triple],
    memory: &Memory,
) -> Result<List<Triple>, NoMemory>
    ensures { IfOk result (λ looked. IsLooked before.now goals.now touched.now memory.now.elements looked) }
{
    let changed = changed_goals(alloc, before, goals)?;
    let mut looked = List::from_vec(Vec::with_capacity(alloc, touched.len().saturating_mul(2))?);
    add_both(&mut looked, touched)?;
    add_of_ids(alloc, &mut looked, changed.as_slice(), memory)?;
    Ok(looked)
}

/// Adds triples, unmarked and marked.
fn add_both(looked: &mut List<Triple>, triples: &[Triple]) -> Result<(), NoMemory>
    ensures { OnOk result (looked.new ≡ looked.old ++ both_marks triples.now) }
{
    'triples: for triple in triples {
        add_marks(looked, *triple)?;
    }
    Ok(())
}

/// Adds a triple, unmarked and marked.
fn add_marks(looked: &mut List<Triple>, triple: Triple) -> Result<(), NoMemory>
    ensures { OnOk result (looked.new ≡ looked.old ++ marks_of triple) }
{
    looked.push(with_mark(triple, false))?;
    looked.push(with_mark(triple, true))?;
    Ok(())
}

fn with_mark(triple: Triple, mark: bool) -> Triple
    ensures { result ≡ with_mark triple mark }
{
    Triple {
        id: triple.id,
        attr: triple.attr,
        value: triple.value,
        accept: mark,
    }
}

/// Adds the triples that elements of identifiers have.
fn add_of_ids(
    alloc: Global,
    looked: &mut List<Triple>,
    ids: &[Sym],
    memory: &Memory,
) -> Result<(), NoMemory>
    ensures { OnOk result (looked.new ≡ looked.old ++ triples_of ids.now memory.now.elements) }
{
    'ids: for id in ids {
        add_of_id(alloc, looked, *id, memory)?;
    }
    Ok(())
}

/// Adds the triples that elements of an identifier have.
fn add_of_id(
    alloc: Global,
    looked: &mut List<Triple>,
    id: Sym,
    memory: &Memory,
) -> Result<(), NoMemory>
    ensures { OnOk result (looked.new ≡ looked.old ++ map triple_of (elements_of id memory.now.elements)) }
{
    let elements = memory.of_id(alloc, id)?;
    add_triples(looked, elements.as_slice())?;
    Ok(())
}

/// Adds the triples that elements have.
fn add_triples(looked: &mut List<Triple>, elements: &[Element]) -> Result<(), NoMemory>
    ensures { OnOk result (looked.new ≡ looked.old ++ map triple_of elements.now) }
{
    'elements: for element in elements {
        looked.push(triple_of(element))?;
    }
    Ok(())
}

/// The triple that an element has.
pub fn triple_of(element: &Element) -> Triple
    ensures { result ≡ triple_of element.now }
{
    Triple {
        id: element.id,
        attr: element.attr,
        value: element.value,
        accept: element.accept,
    }
}
